// The refusals of layer 1.
ghost use Rattle.std.specs.Prelude.{◌≡◌};
ghost use Rattle.code.specs.Faults.{report_of};

// A refusal as the user sees it: its number, the layer that asked, and the place.
// Kept as numbers: they are what the lines of a session print. A refusal is an enum until it is reported.
#[derive(Clone, Copy, Debug, PartialEq, Eq)]
pub struct Report {
    pub number: u8,
    pub layer: u8,
    pub place: usize,
}

// The first question about an order, a map or a message that was answered no.
#[derive(Clone, Copy, Debug, PartialEq, Eq)]
pub enum MapFault {
    // n is not from 1 to 10.
    Exponent,
    // There are not as many bytes as n asks for.
    Length,
    // The rank of this position is too large, or stands before.
    Rank(usize),
    // This position does not keep the law of orders.
    Law(usize),
    // K is larger than the count of positions.
    Count,
    // The byte at this place is neither 0 nor 1.
    Bit(usize),
    // The position, or the span, is not within the code.
    Outside,
    // The message or the output has not the right length.
    Buffer,
}

impl From<MapFault> for Report {
    ghost from_gives = { λ fault r. r ≡ report_of fault };

    // Kept beside those of the other layers: each layer has its own refusals, numbers and places.
    fn from(fault: MapFault) -> Report {
        let (number, place) = match fault {
            MapFault::Exponent => (1, 0),
            MapFault::Length => (2, 0),
            MapFault::Rank(at) => (3, at),
            MapFault::Law(at) => (4, at),
            MapFault::Count => (5, 0),
            MapFault::Bit(at) => (6, at),
            MapFault::Outside => (7, 0),
            MapFault::Buffer => (8, 0),
        };
        Report {
            number,
            layer: 1,
            place,
        }
    }
}
