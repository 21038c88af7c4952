// The refusals of layer 2.
ghost use Rattle.std.specs.Prelude.{◌≡◌};
ghost use Rattle.receiver.specs.Faults.{report_of};
ghost use Rattle.receiver.specs.declared.faults.ReceiverFault.TheVariants.{Map};

use code::faults::{MapFault, Report};

// The first question about a receiver's call that was answered no, or a map's fault, carried whole.
#[derive(Clone, Copy, Debug, PartialEq, Eq)]
pub enum ReceiverFault {
    Map(MapFault),
    // The bytes, or a buffer, have not the right length.
    Length,
    // The work memory is too small.
    Memory,
    // A word is in hand.
    WordInHand,
    // No word is in hand.
    NoWord,
    // Steps of the word in hand remain.
    Unfinished,
    // A cap is larger than 10.
    Cap,
    // The byte at this place does not read.
    Byte(usize),
}

// A refusal as the user sees it.
impl From<ReceiverFault> for Report {
    ghost from_gives = { λ fault r. r ≡ report_of fault };

    // Kept beside those of the other layers: each layer has its own refusals, numbers and places.
    fn from(fault: ReceiverFault) -> Report {
        let (number, place) = match fault {
            ReceiverFault::Map(fault) => return Report::from(fault),
            ReceiverFault::Length => (8, 0),
            ReceiverFault::Memory => (9, 0),
            ReceiverFault::WordInHand => (10, 0),
            ReceiverFault::NoWord => (11, 0),
            ReceiverFault::Unfinished => (12, 0),
            ReceiverFault::Cap => (13, 0),
            ReceiverFault::Byte(at) => (14, at),
        };
        Report {
            number,
            layer: 2,
            place,
        }
    }
}

impl From<MapFault> for ReceiverFault {
    ghost from_gives = { λ fault r. r ≡ Map fault };

    fn from(refusal: MapFault) -> ReceiverFault {
        ReceiverFault::Map(refusal)
    }
}
