// The refusals of layer 3.
ghost use Rattle.std.specs.Prelude.{◌≡◌};
ghost use Rattle.receiver.specs.declared.faults.ReceiverFault.TheVariants.{Map};
ghost use Rattle.session.specs.Faults.{report_of};
ghost use Rattle.session.specs.declared.faults.SessionFault.TheVariants.{Receiver};

use code::faults::{MapFault, Report};
use receiver::faults::ReceiverFault;

// Why a session or one of its commands was refused. A number is the offset of the command's letter in the session.
#[derive(Clone, Copy, Debug, PartialEq, Eq)]
pub enum SessionFault {
    // The call that the command makes was refused.
    Receiver(ReceiverFault),
    // The session or the shelf has more than 65,536 bytes.
    TooLong,
    // The session does not begin with `w` or `e`, then `r` or `l`.
    Header,
    // The letter is not known in this session.
    Letter(usize),
    // The session ends within the command's operands.
    Cut(usize),
    // The command needs a map, and none is in force.
    NoMap(usize),
    // The command needs an order, and none is in force.
    NoOrder(usize),
    // The shelf has no such slot.
    Slot(usize),
}

// A refusal as the user sees it.
impl From<SessionFault> for Report {
    ghost from_gives = { λ fault r. r ≡ report_of fault };

    // Kept beside those of the other layers: each layer has its own refusals, numbers and places.
    fn from(fault: SessionFault) -> Report {
        let (number, place) = match fault {
            SessionFault::Receiver(fault) => return Report::from(fault),
            SessionFault::TooLong => (19, 0),
            SessionFault::Header => (15, 0),
            SessionFault::Letter(at) => (15, at),
            SessionFault::Cut(at) => (16, at),
            SessionFault::NoMap(at) | SessionFault::NoOrder(at) => (17, at),
            SessionFault::Slot(at) => (18, at),
        };
        Report {
            number,
            layer: 3,
            place,
        }
    }
}

impl From<ReceiverFault> for SessionFault {
    ghost from_gives = { λ fault r. r ≡ Receiver fault };

    fn from(refusal: ReceiverFault) -> SessionFault {
        SessionFault::Receiver(refusal)
    }
}

// A map's fault goes up through the receiver's layer.
impl From<MapFault> for SessionFault {
    ghost from_gives = { λ fault r. r ≡ Receiver (Map fault) };

    fn from(refusal: MapFault) -> SessionFault {
        SessionFault::from(ReceiverFault::from(refusal))
    }
}
