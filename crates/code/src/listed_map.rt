// Reading a list of marks, and the map that it is.
ghost use Rattle.std.specs.Prelude.{◌≡◌, [], ◌∷◌, IfOk};
ghost use Rattle.code.specs.Faults.{answer_to, outcome};
ghost use Rattle.code.specs.Spans.{listed_fault};

use crate::bits::lowest_non_bit;
use crate::faults::MapFault;
use crate::kinds::{Mark, SpanKind};
use crate::listed::Listed;
use crate::map::Map;
use crate::patterns::kind_of;
use crate::sizes::{is_span, positions};

static NONE_INFORMED: [u8; 2] = [0, 0];

// The first question about a list of marks that is answered no.
// Kept as a match: what is found is the refusal, and `?` goes the other way.
fn listed_fault(n: u8, bytes: &[u8]) -> Result<(), MapFault>
    ensures { result ≡ answer_to (listed_fault n bytes.now) }
{
    if bytes.len() != positions(n)? {
        return Err(MapFault::Length);
    }
    match lowest_non_bit(bytes) {
        Some(at) => Err(MapFault::Bit(at)),
        None => Ok(()),
    }
}

impl<'a> Listed<'a> {
    // The smallest map that informs nothing: two positions.
    // Kept beside the smallest order: each has its own type and its own bytes.
    pub fn smallest() -> Self
        ensures n { result.n ≡ 1 }
        ensures marks { result.marks.now ≡ 0 ∷ (0 ∷ []) }
    {
        Listed {
            n: 1,
            marks: &NONE_INFORMED,
        }
    }

    // The map that these bytes list, or why they are refused.
    // Kept beside the order's: the questions differ, and what is promised of the value made.
    pub fn read(n: u8, bytes: &'a [u8]) -> Result<Self, MapFault>
        ensures answer { outcome result ≡ answer_to (listed_fault n bytes.now) }
        ensures n { IfOk result (λ map. map.n ≡ n) }
        ensures marks { IfOk result (λ map. map.marks.now ≡ bytes.now) }
    {
        listed_fault(n, bytes)?;
        Ok(Listed { n, marks: bytes })
    }
}

impl<'a> Map for Listed<'a> {
    ghost exponent = { λ m. m.n };

    ghost marks = { λ m. m.marks.now };

    fn n(&self) -> u8 {
        self.n
    }

    fn mark(&self, position: usize) -> Result<Mark, MapFault> {
        // Kept beside the ranked map's, and as a byte: there a rank is compared, and a row of `Mark` would be a copy of the caller's.
        let mark = self.marks.get(position).ok_or(MapFault::Outside)?;
        Ok(Mark::from(*mark == 1))
    }

    fn kind(&self, start: usize, length: usize) -> Result<Option<SpanKind>, MapFault> {
        if !is_span(self.n, start, length) {
            return Err(MapFault::Outside);
        }
        // Kept beside the ranked map's: that one looks at four marks, this one at all.
        let marks = self.marks;
        Ok(kind_of(&marks[start..start + length]))
    }
}
