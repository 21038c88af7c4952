// What a session asks: its header and its commands.
ghost use Rattle.std.specs.Prelude.{◌≡◌, ok_or, slice_index};
ghost use Rattle.session.specs.declared.faults.SessionFault.{SessionFault};
ghost use Rattle.session.specs.Commands.{number_of, make_of, header_of};

use crate::faults::SessionFault;

// The kind of soft number that a session decodes with.
#[derive(Clone, Copy, Debug, PartialEq, Eq)]
pub enum Number {
    Whole,
    Erasure,
}

impl TryFrom<u8> for Number {
    type Error = SessionFault;

    ghost try_from_gives = { λ byte r. r ≡ ok_or (number_of byte) SessionFault.Header };

    fn try_from(byte: u8) -> Result<Number, SessionFault> {
        match byte {
            b'w' => Ok(Number::Whole),
            b'e' => Ok(Number::Erasure),
            _ => Err(SessionFault::Header),
        }
    }
}

// The make of map that a session chooses among.
#[derive(Clone, Copy, Debug, PartialEq, Eq)]
pub enum Make {
    Ranked,
    Listed,
}

impl TryFrom<u8> for Make {
    type Error = SessionFault;

    ghost try_from_gives = { λ byte r. r ≡ ok_or (make_of byte) SessionFault.Header };

    fn try_from(byte: u8) -> Result<Make, SessionFault> {
        match byte {
            b'r' => Ok(Make::Ranked),
            b'l' => Ok(Make::Listed),
            _ => Err(SessionFault::Header),
        }
    }
}

// The first two bytes of a session.
#[derive(Clone, Copy, Debug, PartialEq, Eq)]
pub struct Header {
    pub number: Number,
    pub make: Make,
}

impl TryFrom<[u8; 2]> for Header {
    type Error = SessionFault;

    ghost try_from_gives = { λ bytes r. r ≡ header_of (slice_index bytes 0) (slice_index bytes 1) };

    fn try_from(bytes: [u8; 2]) -> Result<Header, SessionFault> {
        Ok(Header {
            number: Number::try_from(bytes[0])?,
            make: Make::try_from(bytes[1])?,
        })
    }
}

// A command with its operands, which stay a part of the session.
#[derive(Clone, Copy, Debug, PartialEq, Eq)]
pub enum Command<'a> {
    // `S`: the order in a slot of the shelf.
    Slot { slot: u8 },
    // `O`: an order, two bytes to a rank.
    Order { n: u8, ranks: &'a [u8] },
    // `K`: a ranked map of the order in force.
    Ranked { k: u16 },
    // `L`: a listed map.
    Listed { n: u8, marks: &'a [u8] },
    // `E`: a message to encode.
    Encode { message: &'a [u8] },
    // `B`: both caps.
    Caps { first: u8, second: u8 },
    // `W`: a received word.
    Word { bytes: &'a [u8] },
    // `V`: a received word whose last positions are filled.
    ShortWord { bytes: &'a [u8] },
    // `A`: steps of the word in hand.
    Advance { allowance: u16 },
    // `T`: the decoded word.
    Take,
    // `X`: the word in hand is given up.
    Drop,
}

// How many bytes `E` and `W` take under the map in force.
#[derive(Clone, Copy, Debug, PartialEq, Eq)]
pub struct Sizes {
    pub informed: usize,
    pub positions: usize,
}
