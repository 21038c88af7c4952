// The map in force, of either make.
ghost use Rattle.session.specs.Chosen.{exponent_of, marks_of};

use code::faults::MapFault;
use code::kinds::{Mark, SpanKind};
use code::listed::Listed;
use code::map::Map;
use code::ranked::Ranked;

// A map of either make. An enum, and no `dyn Map`: the receiver copies its map.
#[derive(Clone, Copy)]
pub(crate) enum Chosen<'a> {
    Ranked(Ranked<'a>),
    Listed(Listed<'a>),
}

impl<'a> Map for Chosen<'a> {
    ghost exponent = { exponent_of };

    ghost marks = { marks_of };

    // Kept as a match, here and below: the makes are two, and the receiver copies its map, which a `dyn Map` does not allow.
    fn n(&self) -> u8 {
        match self {
            Chosen::Ranked(map) => map.n(),
            Chosen::Listed(map) => map.n(),
        }
    }

    // Kept as a match: as above.
    fn mark(&self, position: usize) -> Result<Mark, MapFault> {
        match self {
            Chosen::Ranked(map) => map.mark(position),
            Chosen::Listed(map) => map.mark(position),
        }
    }

    // Kept as a match: as above.
    fn kind(&self, start: usize, length: usize) -> Result<Option<SpanKind>, MapFault> {
        match self {
            Chosen::Ranked(map) => map.kind(start, length),
            Chosen::Listed(map) => map.kind(start, length),
        }
    }
}
