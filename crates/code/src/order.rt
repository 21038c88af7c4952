// An accepted order: a rank for each position, 0 the most reliable.
ghost use Rattle.std.specs.Prelude.{◌≡◌, false, is_some};
ghost use Rattle.code.specs.Orders.{order_fault};

// The ranks stay where they were read, two bytes each, the high byte first. That they are accepted holds for as long as the order exists.
// Kept with n beside them, and beside the listed map: n is told at each step, and what ties it to the bytes is each one's own ghost field.
#[derive(Clone, Copy)]
pub struct Order<'a> {
    pub(crate) n: u8,
    pub(crate) ranks: &'a [u8],
    ghost accepted: { is_some (order_fault n ranks.now) ≡ false },
}
