// What a receiver keeps from call to call.
ghost use Rattle.std.specs.Prelude.{◌≤◌};
ghost use Rattle.receiver.specs.States.{height_of};
ghost use Rattle.receiver.specs.declared.caps.Caps.{Caps};

use crate::caps::Caps;
use crate::states::State;
use std::marker::PhantomData;

// A receiver over any map and any kind of soft number. Its caller hands it the same work memory at each call.
#[derive(Drop)]
pub struct Receiver<M, S> {
    pub(crate) map: M,
    pub(crate) caps: Caps,
    pub(crate) state: State,
    pub(crate) kind: PhantomData<S>,
    ghost few: { height_of state ≤ 64 },
    ghost low: { caps.first ≤ 10 },
    ghost high: { caps.second ≤ 10 },
}
