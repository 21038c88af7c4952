// Where orders are kept: in the session itself, and on a shelf of order records, back to back.
ghost use Rattle.std.specs.Prelude.{◌≡◌, ◌+◌, ◌≤◌, length, drop, IfSome};
ghost use Rattle.code.specs.Spans.{part};
ghost use Rattle.session.specs.Shelf.{record_from, slot_record, held_by};

use code::sizes::positions;

// What holds an order's ranks.
#[derive(Clone, Copy)]
pub(crate) enum Source {
    Session,
    Shelf,
}

// What is read: the session, and the shelf of order records.
#[derive(Clone, Copy)]
pub(crate) struct Sources<'a> {
    pub(crate) session: &'a [u8],
    pub(crate) shelf: &'a [u8],
}

impl<'a> Sources<'a> {
    // An order's ranks as a part of the session or of the shelf, whichever holds them, with their place there.
    pub(crate) fn ranks(self, source: Source, place: usize, count: usize) -> (&'a [u8], usize)
        requires { place + count ≤ length (held_by source self.session.now self.shelf.now) }
        ensures ranks { result.0.now ≡ part (held_by source self.entry.session.now self.entry.shelf.now) place count }
        ensures place { result.1 ≡ place }
    {
        let held = match source {
            Source::Session => self.session,
            Source::Shelf => self.shelf,
        };
        (&held[place..place + count], place)
    }
}

// Where an order's ranks stand: `count` bytes from the offset `place` on.
// Kept as an offset: the ranks are handed out as a part of what holds them, with their place.
#[derive(Clone, Copy)]
pub(crate) struct Record {
    pub(crate) n: u8,
    pub(crate) place: usize,
    pub(crate) count: usize,
}

// The order record that begins at `at`, if it is whole.
fn record_at(shelf: &[u8], at: usize) -> Option<Record>
    ensures found { result ≡ record_from at (drop at shelf.now) }
    ensures within { IfSome result (λ found. found.place + found.count ≤ length shelf.now) }
{
    let [n, ranks @ ..] = shelf.get(at..)? else {
        return None;
    };
    let count = 2 * positions(*n).ok()?;
    if ranks.len() < count {
        return None;
    }
    Some(Record {
        n: *n,
        place: at + 1,
        count,
    })
}

// The record of a slot, counted from 0.
// Kept as a loop with an offset in hand: where a record begins is known only once the one before was read.
#[tactic(auto, using(crate::proofs::Records::slot_more, crate::proofs::Records::slot_none, crate::proofs::Records::slot_here))]
pub(crate) fn find_slot(shelf: &[u8], slot: u8) -> Option<Record>
    ensures found { result ≡ slot_record slot 0 shelf.now }
    ensures within { IfSome result (λ found. found.place + found.count ≤ length shelf.now) }
{
    let mut at = 0;
    for _passed in 0..slot {
        let before = record_at(shelf, at)?;
        at = before.place + before.count;
    }
    record_at(shelf, at)
}
