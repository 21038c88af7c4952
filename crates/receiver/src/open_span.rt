// An open span of the work on a word, once it was seen to lie within the code, and memory that was seen to be large enough for it.
ghost use Rattle.std.specs.Prelude.{◌≡◌, ◌+◌, ◌-◌, ◌*◌, ◌^◌, ◌<◌, ◌≤◌, ◌≢◌, IfSome, length};

use crate::memory::{Next, Step};
use code::encode::position_count;
use code::map::Map;

// 2 ^ e positions from `start` on, within a code of 2 ^ n positions, and how many steps are pending below its own.
// Kept as offsets, beside those of a step: the ghost fields say what was seen of them, which nothing says of a step.
#[derive(Clone, Copy)]
pub(crate) struct Spot {
    pub(crate) n: u8,
    pub(crate) start: usize,
    pub(crate) e: u8,
    pub(crate) below: usize,
    ghost small: { n ≤ 10 },
    ghost no_longer: { e ≤ n },
    ghost within: { start + 2 ^ e ≤ 2 ^ n },
    ghost few: { below < 64 },
}

impl Spot {
    // The span of the step on top of `height` pending ones, if it lies within the code.
    // Kept field by field: it is checked against the map, so no From.
    pub(crate) fn of<M: Map>(map: &M, step: Step, height: usize) -> Option<Self>
        ensures some { IfSome result (λ s. (s.n ≡ M.Map.exponent map.now) × (s.start ≡ step.start) × (s.e ≡ step.e) × (s.below ≡ height - 1)) }
        ensures none { result ≡ None → step.e ≤ M.Map.exponent map.now → step.start + 2 ^ step.e ≤ 2 ^ M.Map.exponent map.now → height ≤ 64 → ⊥ }
    {
        let n = map.n();
        if step.e > n || height > 64 {
            return None;
        }
        let size = position_count(map);
        if step.start > size || step.start + (1usize << step.e) > size {
            return None;
        }
        Some(Spot {
            n,
            start: step.start,
            e: step.e,
            below: height.saturating_sub(1),
        })
    }

    // How many positions it has.
    // Kept beside that of code, here and below: that one asks that n is at most 10, and stays in its crate.
    pub(crate) fn length(self) -> usize
        ensures { result ≡ 2 ^ self.e }
    {
        1usize << self.e
    }

    // How many positions a half has.
    // Kept with a condition: a spot may be a single position, and a type for the others would be built behind a test at each use.
    pub(crate) fn half(self) -> usize
        ensures value { result ≡ 2 ^ (self.e - 1) }
        ensures twice { self.e ≢ 0 → 2 * result ≡ 2 ^ self.e }
    {
        1usize << self.e.saturating_sub(1)
    }

    // Where its row begins in soft memory.
    pub(crate) fn base(self) -> usize
        ensures value { result ≡ 2 * 2 ^ self.n - 2 * 2 ^ self.e }
        ensures room { result + 2 * 2 ^ self.e ≡ 2 * 2 ^ self.n }
    {
        2 * ((1usize << self.n) - self.length())
    }

    // A step of it.
    // Kept field by field: a step has no more than is written here.
    pub(crate) fn step(self, next: Next) -> Step
        ensures { result ≡ record { next = next; start = self.start; e = self.e } }
    {
        Step {
            next,
            start: self.start,
            e: self.e,
        }
    }

    // The first step of its half that begins at `start`.
    fn first_at(self, start: usize) -> Step
        ensures { result ≡ record { next = Next.First; start = start; e = self.e - 1 } }
    {
        Step {
            next: Next::First,
            start,
            e: self.e.saturating_sub(1),
        }
    }

    // The first step of its left half.
    pub(crate) fn left(self) -> Step
        ensures { result ≡ record { next = Next.First; start = self.start; e = self.e - 1 } }
    {
        self.first_at(self.start)
    }

    // The first step of its right half.
    pub(crate) fn right(self) -> Step
        ensures { result ≡ record { next = Next.First; start = self.start + 2 ^ (self.e - 1); e = self.e - 1 } }
    {
        self.first_at(self.start + self.half())
    }
}

// An open span and the parts of the work memory, each large enough for its code.
// Kept with the three parts side by side: of a lent struct within a struct the check makes no proof.
#[derive(Drop)]
pub(crate) struct OpenSpan<'a, S> {
    pub(crate) spot: Spot,
    pub(crate) soft: &'a mut [S],
    pub(crate) pending: &'a mut [Step],
    pub(crate) bits: &'a mut [u8],
    ghost rows: { 2 * 2 ^ spot.n ≤ length soft.now },
    ghost steps: { 64 ≤ length pending.now },
    ghost word: { 2 ^ spot.n ≤ length bits.now },
}
