// The span rules: each writes the bits of a whole span.
ghost use Rattle.std.specs.Prelude.{◌≡◌, ℕ, ◌≤◌, ◌^◌, length, replicate};
ghost use Rattle.code.specs.declared.kinds.SpanKind.TheVariants.{Spc};
ghost use Rattle.cancellation.specs.Rows.{signs, join_row};
ghost use Rattle.cancellation.specs.Rules.{parity, folded, repeated, Rule};

use crate::places::place_to_turn;
use soft::soft::Soft;

// Writes the signs, and answers their XOR.
// Kept with the lengths as a clause, here and below: a struct of the two rows would be made for one call.
pub(crate) fn write_signs<S: Soft + Copy>(values: &[S], bits: &mut [u8]) -> u8
    requires { length bits.old ≡ length values.now }
    ensures written { bits.new ≡ signs S.Soft.kind values.now }
    ensures xor { result ≡ parity (signs S.Soft.kind values.now) }
{
    let mut xor = 0;
    for (i, place) in bits.iter_mut().enumerate() {
        let bit = u8::from(values[i].sign());
        *place = bit;
        xor ^= bit;
    }
    xor
}

// Single parity check: the signs, with one of them turned where their XOR is 1.
// Kept as a byte, and with the lengths as a clause: the XOR is told of the bytes as the rule tells it, and a struct of the two rows would be made for one call.
pub(crate) fn single_parity<S: Soft + Copy>(values: &[S], bits: &mut [u8])
    requires { length bits.old ≡ length values.now }
    ensures { (e : ℕ) → length values.now ≡ 2 ^ e → Rule S.Soft.kind Spc e values.now bits.new }
{
    let xor = write_signs(values, bits);
    if xor != 0 {
        if let Some(place) = place_to_turn(values) {
            bits[place] ^= 1;
        }
    }
}

// Joins a row onto the one before it with β = 0.
// Kept with a number for the place in the other row: a zip over `iter_mut` leaves nothing known of what was written.
fn join_onto<S: Soft + Copy>(left: &mut [S], right: &[S])
    requires { length left.old ≤ length right.now }
    ensures { left.new ≡ join_row S.Soft.kind left.old right.now (replicate (length left.old) 0) }
{
    for (i, value) in left.iter_mut().enumerate() {
        *value = value.join(right[i], false);
    }
}

// Halves the row until one value is left, in place 0.
// Kept beside the transform: that one transforms both halves, and then XORs them.
fn fold<S: Soft + Copy>(values: &mut [S])
    ensures { (e : ℕ) → length values.old ≡ 2 ^ e → values.new ≡ folded S.Soft.kind e values.old }
{
    let half = values.len() / 2;
    if half == 0 {
        return;
    }
    let (left, right) = values.split_at_mut(half);
    join_onto(left, right);
    fold(left);
}

// Repetition: all bits are the sign of the value left, once the row is halved.
// Kept with the lengths as a clause: a struct of the two rows would be made for one call.
pub(crate) fn repetition<S: Soft + Copy>(values: &mut [S], bits: &mut [u8])
    requires { length bits.old ≡ length values.old }
    ensures row { (e : ℕ) → length values.old ≡ 2 ^ e → values.new ≡ folded S.Soft.kind e values.old }
    ensures word { (e : ℕ) → length values.old ≡ 2 ^ e → bits.new ≡ repeated S.Soft.kind e values.old }
{
    fold(values);
    if let Some(value) = values.first() {
        bits.fill(u8::from(value.sign()));
    }
}
