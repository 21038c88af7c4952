// A ranked map: an order and K.
ghost use Rattle.std.specs.Prelude.{◌^◌, ◌≤◌};
ghost use Rattle.code.specs.declared.order.Order.{Order};

use crate::order::Order;

// Position i is informed if its rank is below K.
#[derive(Clone, Copy)]
pub struct Ranked<'a> {
    pub(crate) order: Order<'a>,
    pub(crate) k: u16,
    ghost few: { k ≤ 2 ^ order.n },
}
