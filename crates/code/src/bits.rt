// Rows of bytes that should each be 0 or 1.
ghost use Rattle.std.specs.Prelude.{◌≡◌, length, slice_index};
ghost use Rattle.code.specs.Spans.{lowest_no, is_bit};

// The lowest place at which a byte is neither 0 nor 1.
// Kept as bytes: a row of `bool` would be a copy, and nothing here allocates.
pub(crate) fn lowest_non_bit(bytes: &[u8]) -> Option<usize>
    ensures { result ≡ lowest_no (λ p. is_bit (slice_index bytes.now p)) 0 (length bytes.now) }
{
    bytes.iter().position(|b| *b > 1)
}
