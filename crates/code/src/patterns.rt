// The kind of a row of marks, by a look at every mark.
ghost use Rattle.std.specs.Prelude.{◌≡◌, length, replicate};
ghost use Rattle.code.specs.Spans.{same, pattern, kind_of};
ghost use Rattle.code.specs.declared.kinds.SpanKind.TheVariants.{Rep, Spc};

use crate::kinds::SpanKind;

// Is every mark of this row `value`?
fn is_constant(row: &[u8], value: u8) -> bool
    ensures { result ≡ same row.now (replicate (length row.now) value) }
{
    row.iter().all(|mark| *mark == value)
}

// Is only the last mark informed?
// Kept as bytes: a row of `Mark` would be a copy, and nothing here allocates.
fn is_repetition(row: &[u8]) -> bool
    ensures { result ≡ same row.now (pattern Rep (length row.now)) }
{
    match row {
        [front @ .., last] => *last == 1 && is_constant(front, 0),
        [] => false,
    }
}

// Is only the first mark frozen?
// Kept as bytes: a row of `Mark` would be a copy, and nothing here allocates.
fn is_single_parity(row: &[u8]) -> bool
    ensures { result ≡ same row.now (pattern Spc (length row.now)) }
{
    match row {
        [first, rest @ ..] => *first == 0 && is_constant(rest, 1),
        [] => false,
    }
}

// The first kind whose pattern the row has.
// Kept as tests in a row: the order in which the kinds are tried is the rule.
pub(crate) fn kind_of(row: &[u8]) -> Option<SpanKind>
    ensures { result ≡ kind_of row.now }
{
    if is_constant(row, 0) {
        return Some(SpanKind::Rate0);
    }
    if is_constant(row, 1) {
        return Some(SpanKind::Rate1);
    }
    if is_repetition(row) {
        return Some(SpanKind::Rep);
    }
    if is_single_parity(row) {
        return Some(SpanKind::Spc);
    }
    None
}
