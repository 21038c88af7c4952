// What the receiver's calls answer.

// What an advance answers: the steps made, and whether none remains.
// Kept as a yes or no beside the count: each is told of every advance, so it is a record and no Option.
#[derive(Clone, Copy, Debug, PartialEq, Eq)]
pub struct Advance {
    pub made: u16,
    pub finished: bool,
}
