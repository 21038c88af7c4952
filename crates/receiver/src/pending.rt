// The pending steps, a stack in the work memory.
ghost use Rattle.std.specs.Prelude.{◌≡◌, ◌+◌, ◌<◌, length, slice_set};
ghost use Rattle.receiver.specs.Stacks.{top_of};

use crate::memory::Step;
use crate::stack::Stack;

// The step that comes next.
// Kept as `&mut`: the stack that it pops from is over memory lent to be written, and that it stays is a clause.
// Kept with the height beside it: only the height tells how much of the lent memory counts.
pub(crate) fn top_step(pending: &mut [Step], height: usize) -> Option<Step>
    ensures answer { result ≡ top_of height pending.old }
    ensures pending { pending.new ≡ pending.old }
{
    let mut stack = Stack {
        slots: pending,
        len: height,
    };
    stack.pop()
}

// Above `below` steps a later step of some span, and above it a step of one of its halves.
// Kept with the height beside it: only the height tells how much of the lent memory counts.
pub(crate) fn push_half(pending: &mut [Step], below: usize, later: Step, half: Step) -> usize
    requires { below + 1 < length pending.old }
    ensures height { result ≡ below + 2 }
    ensures pending { pending.new ≡ slice_set (slice_set pending.old below later) (below + 1) half }
{
    let mut stack = Stack {
        slots: pending,
        len: below,
    };
    let _ = stack.push(later);
    let _ = stack.push(half);
    stack.len()
}

// A step as the only one that is pending.
pub(crate) fn put_alone(pending: &mut [Step], step: Step)
    requires { 0 < length pending.old }
    ensures { pending.new ≡ slice_set pending.old 0 step }
{
    let mut stack = Stack {
        slots: pending,
        len: 0,
    };
    let _ = stack.push(step);
}
