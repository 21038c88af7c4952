// Sizes of codes and spans as numbers of positions.
ghost use Rattle.std.specs.Prelude.{◌≡◌, ◌^◌, ◌≤◌, if◌then◌else◌};
ghost use Rattle.code.specs.Spans.{good_exponent, power_up_to, is_span};

use crate::faults::MapFault;

// 2 ^ n, for the n of a code or of a span within one.
// Kept beside the receiver's `Spot::length`: a public function asks nothing of its caller, and this one asks that n is at most 10.
pub(crate) fn two_to(n: u8) -> usize
    requires { n ≤ 10 }
    ensures { result ≡ 2 ^ n }
{
    1usize << n
}

// The count of positions, if n is from 1 to 10.
pub fn positions(n: u8) -> Result<usize, MapFault>
    ensures { result ≡ (if good_exponent n then Ok (2 ^ n) else Err MapFault.Exponent) }
{
    if (1..=10).contains(&n) {
        Ok(two_to(n))
    } else {
        Err(MapFault::Exponent)
    }
}

// Is length one of 1, 2, 4, .. 2 ^ n?
// Kept with the bound as a clause: a type for n would be taken apart again by the order and the maps, whose users are told n as a number.
fn power_up_to(n: u8, length: usize) -> bool
    requires { n ≤ 10 }
    ensures { result ≡ power_up_to n length }
{
    length.is_power_of_two() && length <= two_to(n)
}

// Is (start, length) a span within 2 ^ n positions?
// Kept as a question, with the bound as a clause: both maps refuse by it, and their users are told n as a number.
pub(crate) fn is_span(n: u8, start: usize, length: usize) -> bool
    requires { n ≤ 10 }
    ensures { result ≡ is_span n start length }
{
    if !power_up_to(n, length) {
        return false;
    }
    start % length == 0 && start <= two_to(n) - length
}
