// Which bit a single parity check turns.
ghost use Rattle.std.specs.Prelude.{◌≡◌, ℕ, ◌^◌, ◌<◌, IsSomeAnd, IfSome, length, if◌then◌else◌, nat_eq, nat_lt};
ghost use Rattle.cancellation.specs.Rules.{reversed, Turns, size_at};

use soft::soft::Soft;

// Of two numbers, is the first the smaller, their bits read in reverse? The lowest bit in which they differ decides.
// Kept as a function that calls itself: comparing both by `reverse_bits` was measured to take nine times as long on rows of many equal sizes.
fn reversed_below(i: usize, j: usize) -> bool
    ensures { (e : ℕ) → i < 2 ^ e → j < 2 ^ e → result ≡ nat_lt (reversed e i) (reversed e j) }
{
    if i == j {
        return false;
    }
    if i % 2 == j % 2 {
        return reversed_below(i / 2, j / 2);
    }
    i % 2 < j % 2
}

// Is place i, of this size, to be turned rather than place j?
// Kept as a test and two comparisons: the order of pairs would need both numbers reversed, also where the sizes differ.
fn turns_before(size: u32, i: usize, other: u32, j: usize) -> bool
    ensures { (e : ℕ) → i < 2 ^ e → j < 2 ^ e → result ≡ (if nat_eq size other then nat_lt (reversed e i) (reversed e j) else nat_lt size other) }
{
    if size == other {
        reversed_below(i, j)
    } else {
        size < other
    }
}

// The place of a span to turn: of least size, and among equals the one whose number, read in reverse, is smallest. A row of no values has none.
// Kept as a loop with the place and its size in hand: `min_by_key` was measured to take more than twice the time, since it reverses the number of every place.
pub(crate) fn place_to_turn<S: Soft + Copy>(values: &[S]) -> Option<usize>
    ensures turns { (e : ℕ) → length values.now ≡ 2 ^ e → IsSomeAnd result (Turns e (size_at S.Soft.kind values.now) (2 ^ e)) }
    ensures within { IfSome result (λ place. place < length values.now) }
{
    let [first, rest @ ..] = values else {
        return None;
    };
    let mut place = 0;
    let mut least = first.size();
    for (i, value) in rest.iter().enumerate() {
        let size = value.size();
        if turns_before(size, i + 1, least, place) {
            place = i + 1;
            least = size;
        }
    }
    Some(place)
}
