// The law of orders, tested with n looks at each position.
ghost use Rattle.std.specs.Prelude.{◌≡◌, ◌+◌, ◌-◌, ◌/◌, ◌%◌, ◌^◌, ◌<◌};
ghost use Rattle.code.specs.Spans.{lowest_no};
ghost use Rattle.code.specs.Orders.{ranks_of, setting_keeps, exchange_keeps, exchanges_keep, keeps_law};

use crate::ranks::Ranks;
use crate::sizes::two_to;

// A position that has a rank.
#[derive(Clone, Copy)]
struct Place<'a> {
    ranks: Ranks<'a>,
    p: usize,
    ghost within: { p < 2 ^ ranks.n },
}

impl<'a> Place<'a> {
    // An exchange below bit n leads to another of the 2 ^ n positions. There is nothing to run.
    fn exchange_stays_within(self, b: u8)
        requires { b + 1 < self.ranks.n }
        ensures { self.entry.p / 2 ^ b % 4 ≡ 1 → self.entry.p + 2 ^ b < 2 ^ self.entry.ranks.n }
    {}

    // Does setting bit 0, if it is 0, lead to a lower rank?
    fn setting_keeps(self) -> bool
        ensures { result ≡ setting_keeps (ranks_of self.entry.ranks.bytes.now) self.entry.p }
    {
        if self.p % 2 == 0 {
            self.ranks.at(self.p + 1) < self.ranks.at(self.p)
        } else {
            true
        }
    }

    // Does the exchange of a 1 at bit b with a 0 at bit b + 1, if they stand so, lead to a lower rank?
    fn exchange_keeps(self, b: u8) -> bool
        requires { b + 1 < self.ranks.n }
        ensures { result ≡ exchange_keeps (ranks_of self.entry.ranks.bytes.now) self.entry.p b }
    {
        self.exchange_stays_within(b);
        let step = two_to(b);
        if self.p / step % 4 == 1 {
            self.ranks.at(self.p + step) < self.ranks.at(self.p)
        } else {
            true
        }
    }

    // Does every exchange that can be made here lead to a lower rank?
    fn exchanges_keep(self) -> bool
        ensures { result ≡ exchanges_keep (ranks_of self.entry.ranks.bytes.now) self.entry.p (self.entry.ranks.n - 1) }
    {
        (0..self.ranks.n - 1).all(|b| self.exchange_keeps(b))
    }

    // Does the position keep the law?
    fn keeps_law(self) -> bool
        ensures { result ≡ keeps_law self.entry.ranks.n (ranks_of self.entry.ranks.bytes.now) self.entry.p }
    {
        self.setting_keeps() && self.exchanges_keep()
    }
}

impl<'a> Ranks<'a> {
    // Does p keep the law?
    fn keeps_law(self, p: usize) -> bool
        requires { p < 2 ^ self.n }
        ensures { result ≡ keeps_law self.entry.n (ranks_of self.entry.bytes.now) p }
    {
        Place { ranks: self, p }.keeps_law()
    }

    // The lowest position that does not keep the law.
    pub(crate) fn lowest_breach(self) -> Option<usize>
        ensures { result ≡ lowest_no (keeps_law self.entry.n (ranks_of self.entry.bytes.now)) 0 (2 ^ self.entry.n) }
    {
        (0..two_to(self.n)).find(|p| !self.keeps_law(*p))
    }
}
