// Taking a word in hand: its values, and no bit decided.
ghost use Rattle.std.specs.Prelude.{◌≡◌, ◌-◌, ◌≤◌, ◌++◌, map, length, take, drop, replicate, is_some, slice_index};
ghost use Rattle.std.specs.Option.{option_map};
ghost use Rattle.code.specs.Spans.{lowest_no};
ghost use Rattle.receiver.specs.Admissions.{replied};
ghost use Rattle.receiver.specs.Model.{value_of};

use crate::faults::ReceiverFault;
use crate::stack::Stack;
use soft::soft::Soft;

// The lowest place at which a byte does not read.
fn lowest_unread<S: Soft + Copy>(bytes: &[u8]) -> Option<usize>
    ensures { result ≡ lowest_no (λ i. is_some (S.Soft.kind.read (slice_index bytes.now i))) 0 (length bytes.now) }
{
    bytes.iter().position(|b| S::read(*b).is_none())
}

// Does every byte read? Else the lowest that does not is refused.
// Kept as a match: what is found is the refusal, and `?` goes the other way.
pub(crate) fn all_read<S: Soft + Copy>(bytes: &[u8]) -> Result<(), ReceiverFault>
    ensures { result ≡ replied (option_map ReceiverFault.Byte (lowest_no (λ i. is_some (S.Soft.kind.read (slice_index bytes.now i))) 0 (length bytes.now))) tt }
{
    match lowest_unread::<S>(bytes) {
        Some(at) => Err(ReceiverFault::Byte(at)),
        None => Ok(()),
    }
}

// Puts the values of a word of `size` positions on an empty stack: those of its bytes, then the fill. The fill stands also for a byte that does not read.
// Kept as pushes, with the size beside the memory: the stack is written once for every element, and the memory may be larger than the map needs.
pub(crate) fn load<S: Soft + Copy>(soft: &mut [S], bytes: &[u8], size: usize)
    requires short { length bytes.now ≤ size }
    requires room { size ≤ length soft.old }
    ensures { take size soft.new ≡ map (λ b. value_of S.Soft.kind (S.Soft.kind.read b)) bytes.now ++ replicate (size - length bytes.now) S.Soft.kind.fill }
{
    let mut stack = Stack {
        slots: soft,
        len: 0,
    };
    for byte in bytes {
        let _ = stack.push(S::read(*byte).unwrap_or(S::fill()));
    }
    for _ in bytes.len()..size {
        let _ = stack.push(S::fill());
    }
}

// No bit of `size` positions is decided: each is 2.
// Kept with the size beside it: the memory may be larger than the map needs.
pub(crate) fn clear_bits(bits: &mut [u8], size: usize)
    requires { size ≤ length bits.old }
    ensures { bits.new ≡ replicate size 2 ++ drop size bits.old }
{
    bits[..size].fill(2);
}
