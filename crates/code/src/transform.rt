// The polar transform of a lent row of bits, in place.
ghost use Rattle.std.specs.Prelude.{◌≡◌, ℕ, ◌/◌, ◌^◌, ◌++◌, length, take, drop};
ghost use Rattle.code.specs.Transform.{transform, xor_row};

// XORs the right half of a row onto its left half.
// Kept beside the one of rows, which calls it: that one refuses a row that has no halves, and this one has no refusal. And with a number for the place in the other half: a zip over `iter_mut` leaves nothing known of what was written.
pub fn xor_halves(bits: &mut [u8])
    ensures { let half = length bits.old / 2 in bits.new ≡ xor_row (take half bits.old) (drop half bits.old) ++ drop half bits.old }
{
    let half = bits.len() / 2;
    let (left, right) = bits.split_at_mut(half);
    for (i, bit) in left.iter_mut().enumerate() {
        *bit ^= right[i];
    }
}

// The transform of 2 ^ e bits, for any e.
// Kept beside the halving of a repetition: that one joins values onto one half and leaves the other. And as a test of the length, before it is halved: else each row of one bit costs more, and encoding took a fifth longer.
pub(crate) fn transform_row(bits: &mut [u8])
    ensures { (e : ℕ) → length bits.old ≡ 2 ^ e → bits.new ≡ transform e bits.old }
{
    if bits.len() < 2 {
        return;
    }
    let half = bits.len() / 2;
    let (front, back) = bits.split_at_mut(half);
    transform_row(front);
    transform_row(back);
    xor_halves(bits);
}
