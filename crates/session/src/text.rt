// The lines of a session.
ghost use Rattle.std.specs.Prelude.{◌≡◌, ◌<◌, ◌≤◌, [], ◌∷◌, Some, if◌then◌else◌, nat_eq, length, take};
ghost use Rattle.session.specs.Answers.{answer_of, shown_in};
ghost use Rattle.session.specs.Sessions.{answer_line};
ghost use Rattle.session.specs.Text.{bits_text, message_text, shown_letter};

use crate::answers::Answer;
use crate::faults::SessionFault;
use code::faults::Report;
use std::{fmt, str};

// The line of a command: its number, its letter and its answer.
#[derive(Clone, Copy)]
pub(crate) struct Line<'b> {
    pub(crate) number: usize,
    pub(crate) letter: u8,
    pub(crate) answer: Result<Answer<'b>, SessionFault>,
    ghost ascii: { shown_in answer letter < 128 },
}

impl fmt::Display for Line<'_> {
    ghost output = { λ l. Some (answer_line l.number l.letter (answer_of l.answer)) };

    // The 0 is the answer number of a command that was done.
    #[tactic(auto, using(crate::proofs::Lines::done_is, crate::proofs::Lines::done_one, crate::proofs::Lines::done_two, crate::proofs::Lines::done_three))]
    fn fmt<W: fmt::Write>(&self, f: &mut fmt::Formatter<W>) -> fmt::Result {
        let number = self.number;
        match self.answer {
            Ok(answer) => {
                let letter = Letter { byte: self.letter };
                match answer {
                    Answer::Nothing => writeln!(f, "{number} {letter} 0"),
                    Answer::Number(count) => writeln!(f, "{number} {letter} 0 {count}"),
                    Answer::Pair(first, second) => {
                        writeln!(f, "{number} {letter} 0 {first} {second}")
                    }
                    Answer::Word(word) => writeln!(f, "{number} {letter} 0 {}", Bits(word)),
                    Answer::Taken(steps, message, word) => writeln!(
                        f,
                        "{number} {letter} 0 {steps} {} {}",
                        Message(message),
                        Bits(word)
                    ),
                }
            }
            Err(fault) => {
                let report = Report::from(fault);
                let letter = Letter::shown(report, self.letter);
                let Report {
                    number: answer,
                    layer,
                    place,
                } = report;
                writeln!(f, "{number} {letter} {answer} {layer} {place}")
            }
        }
    }
}

// The letter of a line, which is an ASCII character.
#[derive(Clone, Copy)]
struct Letter {
    byte: u8,
    ghost ascii: { byte < 128 },
}

impl Letter {
    // A letter that is not known is shown as `?`, and so is that of a session that is too long.
    // Kept as numbers: the rule of the lines is told by the number that is printed.
    fn shown(report: Report, byte: u8) -> Letter
        requires { shown_letter report byte < 128 }
        ensures { result.byte ≡ shown_letter report byte }
    {
        if report.number == 15 || report.number == 19 {
            Letter { byte: b'?' }
        } else {
            Letter { byte }
        }
    }
}

impl fmt::Display for Letter {
    ghost output = { λ l. Some (l.byte ∷ []) };

    #[tactic(auto, using(crate::proofs::Lines::ascii_char))]
    fn fmt<W: fmt::Write>(&self, f: &mut fmt::Formatter<W>) -> fmt::Result {
        f.write_char(char::from(self.byte))
    }
}

// How many bits are written at a time: written one by one a word took half as long again.
const RUN: usize = 128;

// Fewer bits than these are written one by one: for them that is the quicker way.
const FEW: usize = 16;

// Kept as a byte: the bits are those of the buffers, and what is written is a byte of a row.
fn bit_char(bit: u8) -> u8
    ensures { result ≡ (if nat_eq bit 0 then 48 else 49) }
{
    if bit == 0 { b'0' } else { b'1' }
}

// Writes bits as the characters 0 and 1 at the front of a row that has room for them.
// Kept with a number for the place in the row: a zip over `iter_mut` leaves nothing known of what was written.
fn write_digits(bits: &[u8], digits: &mut [u8])
    requires { length bits.now ≤ length digits.old }
    ensures { take (length bits.now) digits.new ≡ bits_text bits.now }
{
    for (i, bit) in bits.iter().enumerate() {
        digits[i] = bit_char(*bit);
    }
}

// Bits as the characters 0 and 1.
// Kept beside a message: that may be empty, and is then shown otherwise.
#[derive(Clone, Copy)]
struct Bits<'b>(&'b [u8]);

impl fmt::Display for Bits<'_> {
    ghost output = { λ bits. Some (bits_text bits.0.now) };

    fn fmt<W: fmt::Write>(&self, f: &mut fmt::Formatter<W>) -> fmt::Result {
        if self.0.len() < FEW {
            for bit in self.0 {
                // Kept as a byte: the bits are those of the buffers.
                f.write_str(if *bit == 0 { "0" } else { "1" })?;
            }
            return Ok(());
        }
        // Kept as an array: a run is written at once, for its time.
        let mut digits = [b'0'; RUN];
        for run in self.0.chunks(RUN) {
            write_digits(run, &mut digits);
            let Ok(text) = str::from_utf8(&digits[..run.len()]) else {
                unreachable!();
            };
            f.write_str(text)?;
        }
        Ok(())
    }
}

// The bits of a message, or `-` if there are none.
// Kept beside bits: those are never shown as `-`.
#[derive(Clone, Copy)]
struct Message<'b>(&'b [u8]);

impl fmt::Display for Message<'_> {
    ghost output = { λ message. Some (message_text message.0.now) };

    fn fmt<W: fmt::Write>(&self, f: &mut fmt::Formatter<W>) -> fmt::Result {
        if self.0.is_empty() {
            return f.write_char('-');
        }
        write!(f, "{}", Bits(self.0))
    }
}
