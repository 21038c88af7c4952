// The encoder, over any map.
ghost use Rattle.std.specs.Prelude.{◌≡◌, ◌^◌, ◌≤◌, ◌&&◌, length, Ok, ◌==◌, slice_index};
ghost use Rattle.code.specs.Encode.{informed_count, laid, informed, encoded, encode_fault, message_fault};
ghost use Rattle.code.specs.Faults.{answer_to, in_force};
ghost use Rattle.code.specs.Transform.{transform};

use crate::bits::lowest_non_bit;
use crate::faults::MapFault;
use crate::kinds::Mark;
use crate::map::Map;
use crate::sizes::two_to;
use crate::transform::transform_row;

// Is this position informed? One past the last is not.
fn is_informed<M: Map>(map: &M, position: usize) -> bool
    ensures { result ≡ (slice_index (M.marks map.now) position == 1) }
{
    matches!(map.mark(position), Ok(Mark::Informed))
}

// How many positions there are.
pub fn position_count<M: Map>(map: &M) -> usize
    ensures value { result ≡ 2 ^ M.exponent map.now }
    ensures marks { result ≡ length (M.marks map.now) }
    ensures bound { result ≤ 1024 }
{
    two_to(map.n())
}

// How many positions are informed.
// Kept as a sum of ones and zeros: with `filter` and `count` it took more than twice the time over a listed map.
pub fn informed_count<M: Map>(map: &M) -> usize
    ensures { result ≡ informed_count (M.marks map.now) }
{
    (0..position_count(map))
        .map(|p| usize::from(is_informed(map, p)))
        .sum()
}

// Are these the lengths of a message and of a word?
// Kept as a question: its callers refuse by it, each in its own words.
pub fn right_lengths<M: Map>(map: &M, message: usize, word: usize) -> bool
    ensures right { result ≡ (message == informed_count (M.marks map.now) && word == length (M.marks map.now)) }
    ensures whole { length (M.marks map.now) ≡ 2 ^ M.exponent map.now }
{
    let positions = position_count(map);
    message == informed_count(map) && word == positions
}

// Lays the message on the informed positions in rising order, 0 on the frozen ones.
// Kept as bytes, and with the rest of the message in hand: both rows are the caller's, and a zip over `iter_mut` leaves nothing known of what was written.
fn lay<M: Map>(map: &M, message: &[u8], word: &mut [u8])
    requires { (length word.old ≡ length (M.marks map.now)) × (length message.now ≡ informed_count (M.marks map.now)) }
    ensures { word.new ≡ laid (M.marks map.now) message.now }
{
    let mut rest = message;
    for (p, place) in word.iter_mut().enumerate() {
        *place = 0;
        if is_informed(map, p) {
            if let [bit, later @ ..] = rest {
                *place = *bit;
                rest = later;
            }
        }
    }
}

// Writes the word of a message, or refuses and leaves the output as it was. The transform of the word has the message at the informed positions.
pub fn encode<M: Map>(map: &M, message: &[u8], word: &mut [u8]) -> Result<(), MapFault>
    ensures answer { result ≡ answer_to (encode_fault (M.marks map.now) message.now (length word.old)) }
    ensures word { word.new ≡ in_force (encode_fault (M.marks map.now) message.now (length word.old)) (encoded (M.exponent map.now) (M.marks map.now) message.now) word.old }
    ensures back { result ≡ Ok tt → informed (M.marks map.now) (transform (M.exponent map.now) word.new) ≡ message.now }
{
    if !right_lengths(map, message.len(), word.len()) {
        return Err(MapFault::Buffer);
    }
    // Kept as a test: what is found is the refusal, and `?` goes the other way.
    if let Some(at) = lowest_non_bit(message) {
        return Err(MapFault::Bit(at));
    }
    lay(map, message, word);
    transform_row(word);
    Ok(())
}

// Takes the entries at the informed positions, in rising order.
// Kept counting the next place by hand: tried were an iterator over the places, a row that is cut shorter at each place, and a chain that numbers the informed positions; the check then knows nothing of what was written, or not that there is room.
fn gather<M: Map>(map: &M, bits: &[u8], message: &mut [u8])
    requires { (length bits.now ≡ length (M.marks map.now)) × (length message.old ≡ informed_count (M.marks map.now)) }
    ensures { message.new ≡ informed (M.marks map.now) bits.now }
{
    let mut next = 0;
    for (p, bit) in bits.iter().enumerate() {
        if is_informed(map, p) {
            message[next] = *bit;
            next += 1;
        }
    }
}

// Writes the message of a word, the transform of the word at the informed positions, or refuses and leaves the output as it was. The word is as it was.
// Kept as a clause: the word is transformed and transformed back, so no type says that it is as it was.
pub fn message_of<M: Map>(map: &M, word: &mut [u8], message: &mut [u8]) -> Result<(), MapFault>
    ensures answer { result ≡ answer_to (message_fault (M.marks map.now) (length word.old) (length message.old)) }
    ensures message { message.new ≡ in_force (message_fault (M.marks map.now) (length word.old) (length message.old)) (informed (M.marks map.now) (transform (M.exponent map.now) word.old)) message.old }
    ensures word { word.new ≡ word.old }
{
    if !right_lengths(map, message.len(), word.len()) {
        return Err(MapFault::Buffer);
    }
    transform_row(word);
    gather(map, word, message);
    transform_row(word);
    Ok(())
}
