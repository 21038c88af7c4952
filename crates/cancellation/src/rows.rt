// Rows of soft numbers and of bits, combined place by place in lent memory.
ghost use Rattle.std.specs.Prelude.{◌≡◌, ◌*◌, length};
ghost use Rattle.cancellation.specs.Rows.{Rowed, with_check, with_join, with_xor};

use crate::faults::RowFault;
use code::transform;
use soft::soft::Soft;

// `rows` is the row of a span and room for that of its left half, which is written: the check of the span's two halves.
// Kept with a number for the place in the other rows, here and below: a zip over `iter_mut` leaves nothing known of what was written.
pub fn check_row<S: Soft + Copy>(rows: &mut [S]) -> Result<(), RowFault>
    ensures { Rowed (λ h. length rows.old ≡ 3 * h) (with_check S.Soft.kind rows.old) rows.old rows.new result }
{
    if rows.len() % 3 != 0 {
        return Err(RowFault::Length);
    }
    let half = rows.len() / 3;
    let (left, rest) = rows.split_at_mut(half);
    let (right, room) = rest.split_at_mut(half);
    for (i, value) in room.iter_mut().enumerate() {
        *value = left[i].check(right[i]);
    }
    Ok(())
}

// `rows` is the row of a span and room for that of its right half, which is written: the join of the span's two halves,
// with the bits of the left half as β.
// Kept as bytes: in memory a bit can also be 2, not decided, and a row of `bool` would be a copy.
pub fn join_row<S: Soft + Copy>(rows: &mut [S], bits: &[u8]) -> Result<(), RowFault>
    ensures { Rowed (λ h. (length rows.old ≡ 3 * h) × (length bits.now ≡ h)) (with_join S.Soft.kind rows.old bits.now) rows.old rows.new result }
{
    let half = bits.len();
    if rows.len() % 3 != 0 || rows.len() / 3 != half {
        return Err(RowFault::Length);
    }
    let (left, rest) = rows.split_at_mut(half);
    let (right, room) = rest.split_at_mut(half);
    for (i, value) in room.iter_mut().enumerate() {
        *value = left[i].join(right[i], bits[i] == 1);
    }
    Ok(())
}

// The bits of a span from those of its halves: the right half is XORed onto the left.
// Kept beside the encoder's, which it calls: this one refuses a row that has no halves.
pub fn xor_halves(bits: &mut [u8]) -> Result<(), RowFault>
    ensures { Rowed (λ h. length bits.old ≡ 2 * h) (with_xor bits.old) bits.old bits.new result }
{
    if bits.len() % 2 != 0 {
        return Err(RowFault::Length);
    }
    transform::xor_halves(bits);
    Ok(())
}
