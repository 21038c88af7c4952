// One step of the work on a word.
ghost use Rattle.std.specs.Prelude.{◌≡◌, ◌+◌, ◌≤◌};
ghost use Rattle.receiver.specs.Capping.{caps_of};
ghost use Rattle.receiver.specs.Lent.{SameLoans, memory_of};
ghost use Rattle.receiver.specs.Steps.{Roomy, Inside, Follows, Moves};
ghost use Rattle.receiver.specs.Work.{first};

use crate::caps::Caps;
use crate::memory::{Memory, Next};
use crate::open_span::{OpenSpan, Spot};
use crate::pending::top_step;
use code::map::Map;
use soft::soft::Soft;

// The first step of a span: it is settled, or its left half gets its values.
// Kept as an else: a span that the map refuses is passed over, and that is no refusal of the call.
fn first_step<M: Map, S: Soft + Copy>(map: &M, caps: Caps, span: &mut OpenSpan<S>) -> usize
    requires { span.old.spot.n ≡ M.Map.exponent map.now }
    ensures follows { Follows S.Soft.kind (M.Map.exponent map.now) (M.Map.marks map.now) (caps_of caps) first (record { next = Next.First; start = span.old.spot.start; e = span.old.spot.e }) (span.old.spot.below + 1) span.old.soft.now span.old.pending.now span.old.bits.now result span.new.soft.now span.new.pending.now span.new.bits.now }
    ensures inside { Inside (M.Map.exponent map.now) result span.old.bits.now span.new.bits.now }
    ensures lent { SameLoans (memory_of span.old) (memory_of span.new) }
{
    // that the map means a list of marks
    let _n = map.n();
    let spot = span.spot;
    let Ok(kind) = map.kind(spot.start, spot.length()) else {
        return spot.below;
    };
    match caps.settled_by(spot.e, kind) {
        Some(kind) => {
            span.settle(kind);
            spot.below
        }
        None => {
            span.check_halves();
            span.give_way(Next::Second, spot.left())
        }
    }
}

// Makes the step that comes next. What the pending steps say is trusted only as far as it stays within the memory.
// Kept as a height: it is what leads from one step to the next.
// Kept as a match, and no closure: which step comes is plain data in lent memory.
// Kept with the parts side by side: of a lent struct within a struct the check makes no proof.
pub(crate) fn make_step<M: Map, S: Soft + Copy>(
    map: &M,
    caps: Caps,
    memory: &mut Memory<S>,
    height: usize,
) -> usize
    requires room { Roomy (M.Map.exponent map.now) memory.old.soft.now memory.old.pending.now memory.old.bits.now }
    requires some { 1 ≤ height }
    requires few { height ≤ 64 }
    ensures moves { Moves S.Soft.kind (M.Map.exponent map.now) (M.Map.marks map.now) (caps_of caps) height memory.old.soft.now memory.old.pending.now memory.old.bits.now result memory.new.soft.now memory.new.pending.now memory.new.bits.now }
    ensures inside { Inside (M.Map.exponent map.now) result memory.old.bits.now memory.new.bits.now }
    ensures lent { SameLoans memory.old memory.new }
{
    let Some(step) = top_step(memory.pending, height) else {
        return 0;
    };
    let Some(spot) = Spot::of(map, step, height) else {
        return height - 1;
    };
    let mut span = OpenSpan {
        spot,
        soft: memory.soft,
        pending: memory.pending,
        bits: memory.bits,
    };
    match step.next {
        Next::First => first_step(map, caps, &mut span),
        Next::Second => {
            span.join_halves();
            span.give_way(Next::Final, spot.right())
        }
        Next::Final => {
            span.xor_halves();
            spot.below
        }
    }
}
