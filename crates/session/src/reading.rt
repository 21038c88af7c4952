// Reading the commands of a session.
ghost use Rattle.std.specs.Prelude.{◌≡◌, ◌^◌, ◌<◌, ◌≤◌, [], ◌∷◌, ◌++◌, length, take, drop, if◌then◌else◌, Ok, Err, ℕ, ◌+◌, List, IfOk, MatchResult};
ghost use Rattle.session.specs.declared.faults.SessionFault.TheVariants.{Cut};
ghost use Rattle.session.specs.Commands.{read_command, request_of};
ghost use Rattle.session.specs.Faults.{report_of};
ghost use Rattle.session.specs.States.{Left, Placed};
ghost use Rattle.session.specs.Text.{shown_letter};
ghost use Rattle.session.specs.Readings.{reading_of};

use crate::commands::{Command, Make, Sizes};
use crate::faults::SessionFault;
use code::sizes::positions;

// A command and the session after it.
#[derive(Clone, Copy)]
pub(crate) struct Reading<'a> {
    pub(crate) command: Command<'a>,
    pub(crate) rest: &'a [u8],
}

// The first `count` bytes, and those after them.
// Kept with the count beside the bytes: it is what the operand or the map asks for.
fn split<'a>(at: usize, count: usize, bytes: &'a [u8]) -> Result<(&'a [u8], &'a [u8]), SessionFault>
    ensures { MatchResult result (λ read. (count ≤ length bytes.now) × (read.0.now ≡ take count bytes.now) × (read.1.now ≡ drop count bytes.now)) (λ fault. (length bytes.now < count) × (fault ≡ Cut at)) }
{
    bytes.split_at_checked(count).ok_or(SessionFault::Cut(at))
}

// The command with this letter, which stands at offset `at`; `sizes` are those of the map in force, if there is one.
// Kept with the answer in each arm: with a pair from the arms and one answer after the match, the clauses `read` and `left` did not prove.
#[tactic(auto, unfolding(crate::specs::Commands::read_command))]
pub(crate) fn read_command<'a>(
    make: Make,
    sizes: Option<Sizes>,
    at: usize,
    letter: u8,
    bytes: &'a [u8],
) -> Result<Reading<'a>, SessionFault>
    ensures read { reading_of result ≡ read_command make sizes at letter bytes.now }
    ensures ascii { MatchResult result (λ _. letter < 128) (λ fault. shown_letter (report_of fault) letter < 128) }
    ensures left { IfOk result (λ reading. Left bytes.now reading.rest.now) }
    ensures placed { IfOk result (λ reading. (session : List ℕ) → bytes.now ≡ drop (at + 1) session → Placed session at (request_of reading.command)) }
{
    match (make, letter, bytes) {
        (_, b'E', _) => {
            let sizes = sizes.ok_or(SessionFault::NoMap(at))?;
            let (message, rest) = split(at, sizes.informed, bytes)?;
            let command = Command::Encode { message };
            Ok(Reading { command, rest })
        }
        (_, b'W', _) => {
            let sizes = sizes.ok_or(SessionFault::NoMap(at))?;
            let (bytes, rest) = split(at, sizes.positions, bytes)?;
            let command = Command::Word { bytes };
            Ok(Reading { command, rest })
        }
        (_, b'V', [high, low, rest @ ..]) => {
            let count = u16::from_be_bytes([*high, *low]);
            let (bytes, rest) = split(at, usize::from(count), rest)?;
            let command = Command::ShortWord { bytes };
            Ok(Reading { command, rest })
        }
        (_, b'A', [high, low, rest @ ..]) => {
            let allowance = u16::from_be_bytes([*high, *low]);
            let command = Command::Advance { allowance };
            Ok(Reading { command, rest })
        }
        (_, b'B', [first, second, rest @ ..]) => {
            let (first, second) = (*first, *second);
            let command = Command::Caps { first, second };
            Ok(Reading { command, rest })
        }
        (_, b'T', rest) => {
            let command = Command::Take;
            Ok(Reading { command, rest })
        }
        (_, b'X', rest) => {
            let command = Command::Drop;
            Ok(Reading { command, rest })
        }
        (Make::Ranked, b'S', [slot, rest @ ..]) => {
            let command = Command::Slot { slot: *slot };
            Ok(Reading { command, rest })
        }
        (Make::Ranked, b'O', [n, rest @ ..]) => {
            let (ranks, rest) = split(at, 2 * positions(*n)?, rest)?;
            let command = Command::Order { n: *n, ranks };
            Ok(Reading { command, rest })
        }
        (Make::Ranked, b'K', [high, low, rest @ ..]) => {
            let k = u16::from_be_bytes([*high, *low]);
            let command = Command::Ranked { k };
            Ok(Reading { command, rest })
        }
        (Make::Listed, b'L', [n, rest @ ..]) => {
            let (marks, rest) = split(at, positions(*n)?, rest)?;
            let command = Command::Listed { n: *n, marks };
            Ok(Reading { command, rest })
        }
        (_, b'V' | b'A' | b'B', _) => Err(SessionFault::Cut(at)),
        (Make::Ranked, b'S' | b'O' | b'K', _) => Err(SessionFault::Cut(at)),
        (Make::Listed, b'L', _) => Err(SessionFault::Cut(at)),
        _ => Err(SessionFault::Letter(at)),
    }
}
