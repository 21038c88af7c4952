// A listed map: N bytes, in any pattern.
ghost use Rattle.std.specs.Prelude.{◌≡◌, false, is_some};
ghost use Rattle.code.specs.Spans.{listed_fault};

// The marks stay where they were read, 1 informed and 0 frozen.
// Kept with n beside them, and beside the order: n is told at each step, and what ties it to the bytes is each one's own ghost field.
#[derive(Clone, Copy)]
pub struct Listed<'a> {
    pub(crate) n: u8,
    pub(crate) marks: &'a [u8],
    ghost accepted: { is_some (listed_fault n marks.now) ≡ false },
}
