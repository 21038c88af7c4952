// Caps: up to which length spans are settled.
ghost use Rattle.std.specs.Prelude.{◌≡◌};
ghost use Rattle.receiver.specs.Capping.{caps_of};
ghost use Rattle.receiver.specs.Steps.{settled_by};
ghost use Rattle.receiver.specs.Work.{allowed_kind};

use code::kinds::SpanKind;

// Rate-0 and Rep are settled up to 2 to the first cap, Rate-1 and SPC up to 2 to the second.
#[derive(Clone, Copy, Debug, PartialEq, Eq)]
pub struct Caps {
    pub first: u8,
    pub second: u8,
}

impl Caps {
    // Is a span of 2 ^ e positions that has this kind settled?
    pub(crate) fn allows(self, e: u8, kind: SpanKind) -> bool
        ensures { result ≡ allowed_kind (caps_of self) e kind }
    {
        // Kept as a match: four kinds, of which two go by each cap.
        match kind {
            SpanKind::Rate0 | SpanKind::Rep => e <= self.first,
            SpanKind::Rate1 | SpanKind::Spc => e <= self.second,
        }
    }

    // The kind by which a span of 2 ^ e positions is settled, or none: then it is split. A single position always is settled.
    pub(crate) fn settled_by(self, e: u8, kind: Option<SpanKind>) -> Option<SpanKind>
        ensures { result ≡ settled_by (caps_of self) e kind }
    {
        kind.filter(|k| e == 0 || self.allows(e, *k))
    }
}
