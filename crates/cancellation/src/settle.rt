// Spans settled at once, by their kind.
ghost use Rattle.cancellation.specs.Promises.{RightSigns, Allowed};
ghost use Rattle.cancellation.specs.Settle.{Settled};

use crate::faults::RowFault;
use crate::rules::{repetition, single_parity, write_signs};
use code::kinds::SpanKind;
use soft::soft::Soft;

// Writes the bits of a span of this kind from its values. Repetition halves the values in place.
pub fn settle<S: Soft + Copy>(
    kind: SpanKind,
    values: &mut [S],
    bits: &mut [u8],
) -> Result<(), RowFault>
    ensures settled { Settled S.Soft.kind kind values.old values.new bits.old bits.new result }
    ensures right { RightSigns S.Soft.kind }
    ensures allowed { Allowed S.Soft.kind }
{
    if values.len() != bits.len() {
        return Err(RowFault::Length);
    }
    if !values.len().is_power_of_two() {
        return Err(RowFault::Length);
    }
    // Kept as a match: the kinds are a closed list, and each has one rule.
    match kind {
        SpanKind::Rate0 => bits.fill(0),
        SpanKind::Rate1 => {
            let _ = write_signs(values, bits);
        }
        SpanKind::Rep => repetition(values, bits),
        SpanKind::Spc => single_parity(values, bits),
    }
    Ok(())
}
