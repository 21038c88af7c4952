// Reading an order from bytes that somebody else holds, and what it answers.
ghost use Rattle.std.specs.Prelude.{◌≡◌, ◌*◌, ◌^◌, false, [], ◌∷◌, length, is_some, Ok, IfOk};
ghost use Rattle.code.specs.Faults.{answer_to, outcome};
ghost use Rattle.code.specs.Orders.{order_fault, ranks_of, rank_answer, Lawful};

use crate::faults::MapFault;
use crate::order::Order;
use crate::ranks::{Ranks, rank_at};
use crate::sizes::{positions, two_to};

// Rank 1, then rank 0.
static SMALLEST: [u8; 4] = [0, 1, 0, 0];

// The smallest order is accepted. There is nothing to run.
fn smallest_is_accepted()
    ensures { is_some (order_fault 1 (0 ∷ 1 ∷ 0 ∷ 0 ∷ [])) ≡ false }
{}

// The first question about an order that is answered no. There is none where the order is lawful, and only there.
// Kept as a test and a match: what is found is the refusal, and `?` goes the other way.
fn order_fault(n: u8, bytes: &[u8]) -> Result<(), MapFault>
    ensures answer { result ≡ answer_to (order_fault n bytes.now) }
    ensures lawful { result ≡ Ok tt → Lawful n (ranks_of bytes.now) }
    ensures all { length bytes.now ≡ 2 * 2 ^ n → Lawful n (ranks_of bytes.now) → result ≡ Ok tt }
{
    if bytes.len() != 2 * positions(n)? {
        return Err(MapFault::Length);
    }
    let ranks = Ranks { n, bytes };
    if let Some(p) = ranks.lowest_bad() {
        return Err(MapFault::Rank(p));
    }
    match ranks.lowest_breach() {
        Some(p) => Err(MapFault::Law(p)),
        None => Ok(()),
    }
}

impl<'a> Order<'a> {
    // The smallest order: two positions, the second the more reliable.
    // Kept beside the smallest listed map: each has its own type and its own bytes.
    pub fn smallest() -> Self
        ensures n { result.n ≡ 1 }
        ensures ranks { result.ranks.now ≡ 0 ∷ 1 ∷ 0 ∷ 0 ∷ [] }
    {
        smallest_is_accepted();
        Order {
            n: 1,
            ranks: &SMALLEST,
        }
    }

    // The order in these bytes, or why they are refused.
    // Kept beside the listed map's: the questions differ, and what is promised of the value made.
    pub fn read(n: u8, bytes: &'a [u8]) -> Result<Self, MapFault>
        ensures answer { outcome result ≡ answer_to (order_fault n bytes.now) }
        ensures n { IfOk result (λ order. order.n ≡ n) }
        ensures ranks { IfOk result (λ order. order.ranks.now ≡ bytes.now) }
        ensures uncopied { IfOk result (λ order. order.ranks ≡ bytes.entry) }
        ensures lawful { outcome result ≡ Ok tt → Lawful n (ranks_of bytes.now) }
        ensures all { length bytes.now ≡ 2 * 2 ^ n → Lawful n (ranks_of bytes.now) → outcome result ≡ Ok tt }
    {
        order_fault(n, bytes)?;
        Ok(Order { n, ranks: bytes })
    }

    // What it means that the order was accepted. There is nothing to run.
    pub(crate) fn stays_lawful(&self)
        ensures lawful { Lawful self.now.n (ranks_of self.now.ranks.now) }
        ensures whole { length self.now.ranks.now ≡ 2 * 2 ^ self.now.n }
    {}

    // There are 2 ^ n positions; their ranks are lawful for as long as the order exists.
    pub fn n(&self) -> u8
        ensures value { result ≡ self.now.n }
        ensures lawful { Lawful result (ranks_of self.now.ranks.now) }
    {
        self.stays_lawful();
        self.n
    }

    // The rank of a position.
    pub fn rank(&self, position: usize) -> Result<usize, MapFault>
        ensures { result ≡ rank_answer (ranks_of self.now.ranks.now) position }
    {
        self.stays_lawful();
        if position >= two_to(self.n) {
            return Err(MapFault::Outside);
        }
        Ok(rank_at(self.ranks, position))
    }
}
