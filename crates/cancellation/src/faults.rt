// Why a row is refused.

#[derive(Clone, Copy, Debug, PartialEq, Eq)]
pub enum RowFault {
    // The rows have not the lengths that the call needs.
    Length,
}
