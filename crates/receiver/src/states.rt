// Whether a receiver is idle, working or finished, and what it then admits.
ghost use Rattle.std.specs.Prelude.{◌≡◌};
ghost use Rattle.receiver.specs.Admissions.{admitted, replied};

use crate::faults::ReceiverFault;

#[derive(Clone, Copy, Debug, PartialEq, Eq)]
pub enum State {
    // No word is in hand.
    Idle,
    // Steps of the word in hand remain: the height of the pending ones, and how many were made.
    Working(usize, u32),
    // No step remains.
    Finished(u32),
}

// The calls whose answer depends on whether a word is in hand.
#[derive(Clone, Copy, Debug, PartialEq, Eq)]
pub enum Asked {
    Remap,
    Word,
    Advance,
    Take,
    Drop,
}

// The question about the word in hand, by the state and the call together.
pub(crate) fn admit(state: State, asked: Asked) -> Result<(), ReceiverFault>
    ensures { result ≡ replied (admitted state asked) tt }
{
    match (state, asked) {
        (State::Idle, Asked::Remap | Asked::Word) => Ok(()),
        (State::Idle, _) => Err(ReceiverFault::NoWord),
        (_, Asked::Remap | Asked::Word) => Err(ReceiverFault::WordInHand),
        (State::Working(_, _), Asked::Take) => Err(ReceiverFault::Unfinished),
        _ => Ok(()),
    }
}
