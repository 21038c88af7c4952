// What a step does to the row, the bits and the pending steps of an open span.
ghost use Rattle.std.specs.Prelude.{◌≡◌, ◌+◌, ◌-◌, ◌*◌, ◌^◌, ◌<◌, ◌≤◌, ◌≢◌, length, take, drop};
ghost use Rattle.code.specs.Spans.{part, pattern};
ghost use Rattle.cancellation.specs.Cancel.{cancel};
ghost use Rattle.receiver.specs.Lent.{SameLoans, memory_of};
ghost use Rattle.receiver.specs.Stacks.{overwritten};
ghost use Rattle.receiver.specs.Steps.{base, with_left, with_right, with_word, with_half};

use crate::memory::{Next, Step};
use crate::open_span::OpenSpan;
use crate::pending::push_half;
use cancellation::rows::{check_row, join_row, xor_halves};
use cancellation::settle::settle;
use code::kinds::SpanKind;
use soft::soft::Soft;

// The row of a right half, after that of its span, which begins at `base`, with the bits of the left half, which begin at `start`.
// Kept as `&mut`, with offsets: after a struct lends a slice that it holds as `&`, the check does not know that the slice is unchanged.
fn right_row<S: Soft + Copy>(
    soft: &mut [S],
    base: usize,
    bits: &mut [u8],
    start: usize,
    half: usize,
)
    requires row { base + 3 * half ≤ length soft.old }
    requires word { start + half ≤ length bits.old }
    ensures soft { soft.new ≡ with_right S.Soft.kind base half soft.old bits.old start }
    ensures bits { bits.new ≡ bits.old }
{
    let _ = join_row(&mut soft[base..base + 3 * half], &bits[start..start + half]);
}

impl<'a, S: Soft + Copy> OpenSpan<'a, S> {
    // Its bits by the rule of its kind. Its row is no longer needed.
    // Kept as a clause, here and below: that the loans are the same is told of before and after, and no type says it.
    pub(crate) fn settle(&mut self, kind: SpanKind)
        ensures soft { take (base self.old.spot.n self.old.spot.e) self.new.soft.now ≡ take (base self.old.spot.n self.old.spot.e) self.old.soft.now }
        ensures pending { self.new.pending.now ≡ self.old.pending.now }
        ensures bits { self.new.bits.now ≡ overwritten self.old.bits.now self.old.spot.start (cancel S.Soft.kind self.old.spot.e (pattern kind (2 ^ self.old.spot.e)) (part self.old.soft.now (base self.old.spot.n self.old.spot.e) (2 ^ self.old.spot.e))) }
        ensures beyond { drop (2 ^ self.old.spot.n) self.new.bits.now ≡ drop (2 ^ self.old.spot.n) self.old.bits.now }
        ensures lent { SameLoans (memory_of self.old) (memory_of self.new) }
    {
        let base = self.spot.base();
        let start = self.spot.start;
        let length = self.spot.length();
        let soft = &mut *self.soft;
        let bits = &mut *self.bits;
        let _ = settle(
            kind,
            &mut soft[base..base + length],
            &mut bits[start..start + length],
        );
    }

    // The row of its left half, after its own. A single position has no half, and where no step more can be pending nothing is written.
    // Kept beside `xor_halves`: one writes values, the other bits, by functions of other types.
    // Kept with a test, here and below: a type for spans that have halves proves, but the check covers no Option of one, so it would be built behind a test at each use.
    pub(crate) fn check_halves(&mut self)
        ensures soft { self.old.spot.e ≢ 0 → self.old.spot.below + 1 < 64 → self.new.soft.now ≡ with_left S.Soft.kind (base self.old.spot.n self.old.spot.e) (2 ^ (self.old.spot.e - 1)) self.old.soft.now }
        ensures full { 64 ≤ self.old.spot.below + 1 → self.new.soft.now ≡ self.old.soft.now }
        ensures rest { (self.new.spot ≡ self.old.spot) × (self.new.pending.now ≡ self.old.pending.now) × (self.new.bits.now ≡ self.old.bits.now) }
        ensures lent { SameLoans (memory_of self.old) (memory_of self.new) }
    {
        if self.spot.e == 0 || self.spot.below >= 63 {
            return;
        }
        let base = self.spot.base();
        let end = base + 3 * self.spot.half();
        let soft = &mut *self.soft;
        let _ = check_row(&mut soft[base..end]);
    }

    // The row of its right half, after its own, with the bits of its left half. Nothing is written where no step more can be pending.
    pub(crate) fn join_halves(&mut self)
        ensures soft { self.old.spot.e ≢ 0 → self.old.spot.below + 1 < 64 → self.new.soft.now ≡ with_right S.Soft.kind (base self.old.spot.n self.old.spot.e) (2 ^ (self.old.spot.e - 1)) self.old.soft.now self.old.bits.now self.old.spot.start }
        ensures full { 64 ≤ self.old.spot.below + 1 → self.new.soft.now ≡ self.old.soft.now }
        ensures rest { (self.new.spot ≡ self.old.spot) × (self.new.pending.now ≡ self.old.pending.now) × (self.new.bits.now ≡ self.old.bits.now) }
        ensures lent { SameLoans (memory_of self.old) (memory_of self.new) }
    {
        if self.spot.e == 0 || self.spot.below >= 63 {
            return;
        }
        let base = self.spot.base();
        let half = self.spot.half();
        right_row(self.soft, base, self.bits, self.spot.start, half);
    }

    // Its bits from those of its halves.
    // Kept beside `check_halves`: one writes bits, the other values, by functions of other types.
    pub(crate) fn xor_halves(&mut self)
        ensures bits { self.old.spot.e ≢ 0 → self.new.bits.now ≡ with_word (2 ^ (self.old.spot.e - 1)) self.old.bits.now self.old.spot.start }
        ensures beyond { drop (2 ^ self.old.spot.n) self.new.bits.now ≡ drop (2 ^ self.old.spot.n) self.old.bits.now }
        ensures rest { (self.new.spot ≡ self.old.spot) × (self.new.soft.now ≡ self.old.soft.now) × (self.new.pending.now ≡ self.old.pending.now) }
        ensures lent { SameLoans (memory_of self.old) (memory_of self.new) }
    {
        if self.spot.e == 0 {
            return;
        }
        let start = self.spot.start;
        let end = start + self.spot.length();
        let bits = &mut *self.bits;
        let _ = xor_halves(&mut bits[start..end]);
    }

    // A later step of it in the place of its own, and above that a step of one of its halves. How many steps are pending then.
    pub(crate) fn give_way(&mut self, later: Next, half: Step) -> usize
        ensures pushed { self.old.spot.e ≢ 0 → self.old.spot.below + 1 < 64 → (result ≡ self.old.spot.below + 2) × (self.new.pending.now ≡ with_half self.old.pending.now self.old.spot.below (record { next = later; start = self.old.spot.start; e = self.old.spot.e }) half) }
        ensures few { result ≤ 64 }
        ensures rest { (self.new.soft.now ≡ self.old.soft.now) × (self.new.bits.now ≡ self.old.bits.now) }
        ensures lent { SameLoans (memory_of self.old) (memory_of self.new) }
    {
        let spot = self.spot;
        if spot.e == 0 || spot.below >= 63 {
            return spot.below;
        }
        push_half(self.pending, spot.below, spot.step(later), half)
    }
}
