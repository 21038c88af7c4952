// What a map is.
ghost use Rattle.std.specs.Prelude.{◌≡◌, ℕ, List};
ghost use Rattle.code.specs.Spans.{Means, mark_answer, kind_answer};

use crate::faults::MapFault;
use crate::kinds::{Mark, SpanKind};

// A map means a list of 2 ^ n marks, n from 1 to 10, and names each span truly.
pub trait Map {
    // n
    ghost exponent: { Self → ℕ };

    // The marks, 1 informed and 0 frozen.
    ghost marks: { Self → List ℕ };

    fn n(&self) -> u8
        ensures means { Means result (marks self.now) }
        ensures value { result ≡ exponent self.now };

    fn mark(&self, position: usize) -> Result<Mark, MapFault>
        ensures { result ≡ mark_answer (marks self.now) position };

    fn kind(&self, start: usize, length: usize) -> Result<Option<SpanKind>, MapFault>
        ensures { result ≡ kind_answer (exponent self.now) (marks self.now) start length };
}
