// Sessions from their first byte to their last line.
ghost use Rattle.std.specs.Prelude.{◌≡◌, ◌++◌, length, IfOk, OnOk, string_bytes};
ghost use Rattle.receiver.specs.Lent.{SameLoans};
ghost use Rattle.soft.specs.Whole.{whole};
ghost use Rattle.soft.specs.Erasure.{erasure};
ghost use Rattle.session.specs.Sessions.{nothing, lines_from, lines_of, opening, answers, RefusedLeavesAll, ChangesOnlyByChoice};
ghost use Rattle.session.specs.Runs.{SessionsLawful};
ghost use Rattle.session.specs.Opened.{opened_as, opening_of};
ghost use Rattle.session.specs.States.{Room};

use crate::answers::Buffers;
use crate::commands::{Header, Number};
use crate::faults::SessionFault;
use crate::opened::Opened;
use crate::reading::read_command;
use crate::shelf::Sources;
use crate::state::State;
use crate::text::Line;
use receiver::memory::{Memory, Next, Step};
use soft::erasure::Erasure;
use soft::soft::Soft;
use soft::whole::Whole;
use std::alloc::{AllocError, Global};
use std::fmt::Write;

// The most bytes that a session or a shelf may have.
const LONGEST: usize = 65536;

// The questions about the session as a whole.
fn open<'a>(sources: Sources<'a>) -> Result<Opened<'a>, SessionFault>
    ensures begins { opening_of result ≡ opening sources.entry.session.now sources.entry.shelf.now }
    ensures same { IfOk result (λ opened. (opened.sources.session.now ≡ sources.entry.session.now) × (opened.sources.shelf.now ≡ sources.entry.shelf.now)) }
{
    if sources.session.len() > LONGEST || sources.shelf.len() > LONGEST {
        return Err(SessionFault::TooLong);
    }
    let [number, make, commands @ ..] = sources.session else {
        return Err(SessionFault::Header);
    };
    let header = Header::try_from([*number, *make])?;
    Ok(Opened {
        sources,
        header,
        commands,
    })
}

// Does the commands one after the other, in this work memory, and appends their lines.
#[tactic(auto, using(crate::proofs::Turns::operands_at, crate::proofs::Turns::shorter, crate::proofs::Lines::answered_small))]
fn push_lines<'a, S: Soft + Copy>(
    text: &mut String,
    opened: Opened<'a>,
    memory: &mut Memory<S>,
) -> Result<(), AllocError>
    requires { Room memory.old }
    ensures lines { OnOk result (string_bytes text.new ≡ string_bytes text.old ++ lines_from S.Soft.kind (length opened.entry.commands.now) opened.entry.header.make opened.entry.sources.shelf.now (length opened.entry.sources.session.now) 0 opened.entry.commands.now nothing) }
    ensures lent { SameLoans memory.old memory.new }
{
    let sources = opened.sources;
    let make = opened.header.make;
    let mut state: State<S> = State::new();
    let mut message = [0u8; 1024];
    let mut word = [0u8; 1024];
    let mut number = 0;
    let mut rest = opened.commands;
    // Kept as a `while let` with a count beside it: where the next command begins is known only once this one was read.
    while let [letter, operands @ ..] = rest {
        let at = sources.session.len() - rest.len();
        let letter = *letter;
        match read_command(make, state.sizes(), at, letter, operands) {
            Ok(reading) => {
                let buffers = Buffers {
                    message: &mut message,
                    word: &mut word,
                };
                let answer = state.run(reading.command, at, sources, memory, buffers);
                let line = Line {
                    number,
                    letter,
                    answer,
                };
                write!(text, "{line}")?;
                number += 1;
                rest = reading.rest;
            }
            Err(fault) => {
                let line = Line {
                    number,
                    letter,
                    answer: Err(fault),
                };
                return write!(text, "{line}");
            }
        }
    }
    Ok(())
}

// Does the commands in this kind of soft number, with work memory for the largest code.
fn push_in<'a, S: Soft + Copy>(
    text: &mut String,
    opened: Opened<'a>,
    soft: &mut [S],
) -> Result<(), AllocError>
    requires { length soft.old ≡ 2048 }
    ensures { OnOk result (string_bytes text.new ≡ string_bytes text.old ++ lines_from S.Soft.kind (length opened.entry.commands.now) opened.entry.header.make opened.entry.sources.shelf.now (length opened.entry.sources.session.now) 0 opened.entry.commands.now nothing) }
{
    // Kept as a step that is never made: an array has a value at each place.
    let idle = Step {
        next: Next::First,
        start: 0,
        e: 0,
    };
    let mut memory = Memory {
        soft,
        pending: &mut [idle; 64],
        bits: &mut [0; 1024],
    };
    push_lines(text, opened, &mut memory)
}

// The lines of a session that begins well, in its kind of soft number.
// Kept as a table in each arm: a table of 2048 values of a type parameter is not known to have fewer than 2^63 bytes.
fn push_session<'a>(text: &mut String, opened: Opened<'a>) -> Result<(), AllocError>
    ensures { OnOk result (string_bytes text.new ≡ string_bytes text.old ++ lines_of (length opened.entry.sources.session.now) opened.entry.sources.shelf.now (opened_as opened.entry)) }
{
    match opened.header.number {
        Number::Whole => push_in(text, opened, &mut [Whole::fill(); 2048]),
        Number::Erasure => push_in(text, opened, &mut [Erasure::fill(); 2048]),
    }
}

// The lines that a session prints, over a shelf of orders.
pub fn transcript(heap: Global, session: &[u8], shelf: &[u8]) -> Result<String, AllocError>
    ensures text { IfOk result (λ text. string_bytes text ≡ answers session.now shelf.now) }
    ensures refused { (RefusedLeavesAll whole) × (RefusedLeavesAll erasure) }
    ensures chosen { (ChangesOnlyByChoice whole) × (ChangesOnlyByChoice erasure) }
    ensures runs { (SessionsLawful whole) × (SessionsLawful erasure) }
{
    let sources = Sources { session, shelf };
    let mut text = String::new(heap);
    match open(sources) {
        Ok(opened) => push_session(&mut text, opened)?,
        Err(fault) => {
            let line = Line {
                number: 0,
                letter: b'?',
                answer: Err(fault),
            };
            write!(text, "{line}")?;
        }
    }
    Ok(text)
}
