// How large soft numbers grow.
ghost use Rattle.std.specs.Prelude.{◌≡◌, ◌*◌, ◌^◌, if◌then◌else◌, Some, None, nat_le};
ghost use Rattle.cancellation.specs.Sizes.{SizesBounded, NeverStops, RepCheapest, ErasuresKept};

// The largest size to which whole numbers come in a code of 2 ^ n positions: 127 from each. No code has an n above 10.
pub fn largest_size(n: u8) -> Option<u32>
    ensures value { result ≡ (if nat_le n 10 then Some (127 * 2 ^ n) else None) }
    ensures bounded { SizesBounded }
    ensures unstopped { NeverStops }
    ensures cheapest { RepCheapest }
    ensures erasures { ErasuresKept }
{
    if n > 10 {
        return None;
    }
    Some(127 * (1u32 << n))
}
