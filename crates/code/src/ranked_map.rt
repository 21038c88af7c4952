// A ranked map is a map. A span is named by its first two and last two positions.
ghost use Rattle.std.specs.Prelude.{◌≡◌, ◌^◌, ◌<◌, true};
ghost use Rattle.code.specs.Spans.{is_span};
ghost use Rattle.code.specs.Orders.{ranks_of, ranked_marks};
ghost use Rattle.code.specs.Looks.{informed_at, looks_at};

use crate::faults::MapFault;
use crate::kinds::{Mark, SpanKind};
use crate::map::Map;
use crate::ranked::Ranked;
use crate::ranks::rank_at;
use crate::sizes::{is_span, two_to};

impl<'a> Ranked<'a> {
    // Is this position informed?
    fn informed(&self, position: usize) -> bool
        requires { position < 2 ^ self.now.order.n }
        ensures { result ≡ informed_at (ranked_marks (ranks_of self.now.order.ranks.now) self.now.k) position }
    {
        rank_at(self.order.ranks, position) < usize::from(self.k)
    }

    // The kind of a span. Where its first and last position differ it has two or more.
    // Kept as tests in a row: each look is made only where those before leave the kind open.
    fn kind_by_looks(&self, start: usize, length: usize) -> Option<SpanKind>
        requires { is_span self.now.order.n start length ≡ true }
        ensures { result ≡ looks_at (ranked_marks (ranks_of self.now.order.ranks.now) self.now.k) start length }
    {
        let end = start + length;
        if !self.informed(end - 1) {
            return Some(SpanKind::Rate0);
        }
        if self.informed(start) {
            return Some(SpanKind::Rate1);
        }
        if !self.informed(end - 2) {
            return Some(SpanKind::Rep);
        }
        if self.informed(start + 1) {
            return Some(SpanKind::Spc);
        }
        None
    }
}

impl<'a> Map for Ranked<'a> {
    ghost exponent = { λ m. m.order.n };

    ghost marks = { λ m. ranked_marks (ranks_of m.order.ranks.now) m.k };

    fn n(&self) -> u8 {
        self.order.n
    }

    fn mark(&self, position: usize) -> Result<Mark, MapFault> {
        // Kept beside the listed map's: there the mark is read, here a rank is compared.
        if position >= two_to(self.order.n) {
            return Err(MapFault::Outside);
        }
        Ok(Mark::from(self.informed(position)))
    }

    fn kind(&self, start: usize, length: usize) -> Result<Option<SpanKind>, MapFault> {
        // Kept beside the listed map's: that one looks at all marks, this one at four.
        if !is_span(self.order.n, start, length) {
            return Err(MapFault::Outside);
        }
        Ok(self.kind_by_looks(start, length))
    }
}
