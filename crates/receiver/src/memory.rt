// The work memory that a receiver's caller hands it at each call.

// What comes next of an open span.
#[derive(Clone, Copy, Debug, PartialEq, Eq)]
pub enum Next {
    // Its first step: it is settled, or its left half gets its values.
    First,
    // Its right step: the left half is done.
    Second,
    // Its final step: both halves are done.
    Final,
}

// A step that is to be made of the span of 2 ^ e positions from `start` on.
// Kept as offsets: it lies in memory that others lend and may have written.
#[derive(Clone, Copy, Debug, PartialEq, Eq)]
pub struct Step {
    pub next: Next,
    pub start: usize,
    pub e: u8,
}

// Lent memory: 2N soft numbers, 64 pending steps and N bits, or more of each.
// Kept beside `OpenSpan`: this may be of any size, there the sizes were seen.
#[derive(Drop)]
pub struct Memory<'a, S> {
    pub soft: &'a mut [S],
    pub pending: &'a mut [Step],
    pub bits: &'a mut [u8],
}
