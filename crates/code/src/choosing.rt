// Making a ranked map.
ghost use Rattle.std.specs.Prelude.{◌≡◌, Ok, IfOk};
ghost use Rattle.code.specs.Faults.{answer_to, outcome};
ghost use Rattle.code.specs.Orders.{count_fault, ranks_of, ranked_marks};
ghost use Rattle.code.specs.Encode.{informed_count};

use crate::faults::MapFault;
use crate::order::Order;
use crate::ranked::Ranked;
use crate::sizes::two_to;

impl<'a> Ranked<'a> {
    // No position is informed.
    pub fn new(order: Order<'a>) -> Self
        ensures n { result.order.n ≡ order.entry.n }
        ensures ranks { result.order.ranks.now ≡ order.entry.ranks.now }
        ensures uncopied { result.order.ranks ≡ order.entry.ranks }
        ensures k { result.k ≡ 0 }
    {
        Ranked { order, k: 0 }
    }

    // The map of this order and K, or why K is refused.
    pub fn choose(order: Order<'a>, k: u16) -> Result<Self, MapFault>
        ensures answer { outcome result ≡ answer_to (count_fault order.entry.n k) }
        ensures n { IfOk result (λ map. map.order.n ≡ order.entry.n) }
        ensures ranks { IfOk result (λ map. map.order.ranks.now ≡ order.entry.ranks.now) }
        ensures uncopied { IfOk result (λ map. map.order.ranks ≡ order.entry.ranks) }
        ensures k { IfOk result (λ map. map.k ≡ k) }
        ensures count { outcome result ≡ Ok tt → informed_count (ranked_marks (ranks_of order.entry.ranks.now) k) ≡ k }
    {
        order.stays_lawful();
        if usize::from(k) <= two_to(order.n) {
            Ok(Ranked { order, k })
        } else {
            Err(MapFault::Count)
        }
    }
}
