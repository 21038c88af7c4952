// What a position and a span can be.
ghost use Rattle.std.specs.Prelude.{◌≡◌, if◌then◌else◌};
ghost use Rattle.code.specs.declared.kinds.Mark.TheVariants.{Frozen, Informed};

// The mark of a position: an informed position carries a bit of the message, a frozen one carries 0.
#[derive(Clone, Copy, Debug, PartialEq, Eq)]
pub enum Mark {
    Frozen,
    Informed,
}

impl From<bool> for Mark {
    ghost from_gives = { λ informed r. r ≡ (if informed then Informed else Frozen) };

    // Whether the position is informed.
    fn from(informed: bool) -> Mark {
        if informed {
            Mark::Informed
        } else {
            Mark::Frozen
        }
    }
}

// The kinds of span that are settled at once, in the order in which they are tried.
#[derive(Clone, Copy, Debug, PartialEq, Eq)]
pub enum SpanKind {
    // No position is informed.
    Rate0,
    // Every position is informed.
    Rate1,
    // Repetition: only the last position is informed.
    Rep,
    // Single parity check: only the first position is frozen.
    Spc,
}
