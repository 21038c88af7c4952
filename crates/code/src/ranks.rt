// Ranks where they were read: two bytes each, the high byte first.
ghost use Rattle.std.specs.Prelude.{◌≡◌, ◌+◌, ◌*◌, ◌^◌, ◌<◌, ◌≤◌, length, slice_index};
ghost use Rattle.code.specs.Spans.{lowest_no};
ghost use Rattle.code.specs.Orders.{ranks_of, fresh_rank};

use crate::sizes::two_to;

// The ranks of a code of the largest n, 2 ^ 10.
const MOST: usize = 1024;

// As many ranks as the n of a code asks for.
// Kept with n beside the bytes: the ghost field ties them, and the law counts bits up to n.
#[derive(Clone, Copy)]
pub(crate) struct Ranks<'a> {
    pub(crate) n: u8,
    pub(crate) bytes: &'a [u8],
    ghost some: { 1 ≤ n },
    ghost small: { n ≤ 10 },
    ghost long: { length bytes.now ≡ 2 * 2 ^ n },
}

// Where the rank of a position is written. There is nothing to run.
fn rank_is_written(bytes: &[u8], position: usize)
    requires { 2 * position + 1 < length bytes.now }
    ensures { slice_index (ranks_of bytes.now) position ≡ slice_index bytes.now (2 * position) * 256 + slice_index bytes.now (2 * position + 1) }
{}

// The rank of a position.
// Kept as two offsets: a part of two bytes would have to be cut out, and asked whether it is there, at every look.
pub(crate) fn rank_at(bytes: &[u8], position: usize) -> usize
    requires { 2 * position + 1 < length bytes.now }
    ensures { result ≡ slice_index (ranks_of bytes.now) position }
{
    rank_is_written(bytes, position);
    let high = bytes[2 * position];
    let low = bytes[2 * position + 1];
    usize::from(u16::from_be_bytes([high, low]))
}

impl<'a> Ranks<'a> {
    // The rank of a position.
    pub(crate) fn at(self, position: usize) -> usize
        requires { position < 2 ^ self.n }
        ensures { result ≡ slice_index (ranks_of self.entry.bytes.now) position }
    {
        rank_at(self.bytes, position)
    }

    // The lowest position whose rank is too large or stands before. One look at each rank: a table tells which were seen.
    // Kept as a loop, over a table of the largest size: nothing would be known of what a closure answered that changes the table, and nothing here allocates.
    pub(crate) fn lowest_bad(self) -> Option<usize>
        ensures { result ≡ lowest_no (fresh_rank (ranks_of self.entry.bytes.now)) 0 (2 ^ self.entry.n) }
    {
        let count = two_to(self.n);
        let mut seen = [false; MOST];
        for p in 0..count {
            let rank = self.at(p);
            if rank >= count {
                return Some(p);
            }
            if seen[rank] {
                return Some(p);
            }
            seen[rank] = true;
        }
        None
    }
}
