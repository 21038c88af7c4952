// As many steps as an allowance and the remaining work permit.
ghost use Rattle.std.specs.Prelude.{◌≤◌};
ghost use Rattle.receiver.specs.Lent.{SameLoans};
ghost use Rattle.receiver.specs.Capping.{caps_of};
ghost use Rattle.receiver.specs.Steps.{Roomy, Inside, Walks};

use crate::caps::Caps;
use crate::memory::Memory;
use crate::steps::make_step;
use code::map::Map;
use soft::soft::Soft;

// How many steps were made, and how many are pending then.
#[derive(Clone, Copy)]
pub(crate) struct Progress {
    pub(crate) made: u16,
    pub(crate) height: usize,
}

// Goes on `from` the height of the pending steps.
// Kept as a loop with the height in hand: each step leads to the next height, and none is made where no step is pending.
pub(crate) fn make_steps<M: Map, S: Soft + Copy>(
    map: &M,
    caps: Caps,
    memory: &mut Memory<S>,
    from: usize,
    allowance: u16,
) -> Progress
    requires room { Roomy (M.Map.exponent map.now) memory.old.soft.now memory.old.pending.now memory.old.bits.now }
    requires few { from ≤ 64 }
    ensures walks { Walks S.Soft.kind (M.Map.exponent map.now) (M.Map.marks map.now) (caps_of caps) allowance from memory.old.soft.now memory.old.pending.now memory.old.bits.now result.made result.height memory.new.soft.now memory.new.pending.now memory.new.bits.now }
    ensures inside { Inside (M.Map.exponent map.now) result.height memory.old.bits.now memory.new.bits.now }
    ensures most { result.made ≤ allowance }
    ensures lent { SameLoans memory.old memory.new }
{
    let mut height = from;
    for made in 0..allowance {
        if height == 0 {
            return Progress { made, height };
        }
        height = make_step(map, caps, memory, height);
    }
    Progress {
        made: allowance,
        height,
    }
}
