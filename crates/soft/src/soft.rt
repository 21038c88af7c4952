// What a kind of soft number is.
ghost use Rattle.std.specs.Prelude.{◌≡◌};
ghost use Rattle.soft.specs.Kind.{Kind, Laws};

// A soft number means a sign, 0 or 1, even at size zero, and a size. `true` stands for 1.
pub trait Soft: Sized {
    // The operations, in terms of which each method is described.
    ghost kind: { Kind Self };

    // Both laws, the size rule, the reading and the fill.
    ghost laws: { Laws kind };

    fn sign(self) -> bool
        ensures { result ≡ kind.sign self };

    fn size(self) -> u32
        ensures { result ≡ kind.size self };

    // What is known of the XOR of two bits.
    fn check(self, other: Self) -> Self
        ensures { result ≡ kind.check self other };

    // What is known of the second of two bits, whose XOR is `beta`.
    // Kept as a bool: β is a bit.
    fn join(self, other: Self, beta: bool) -> Self
        ensures { result ≡ kind.join self other beta };

    fn read(byte: u8) -> Option<Self>
        ensures { result ≡ kind.read byte };

    // Stands for a value that was not received.
    fn fill() -> Self
        ensures { result ≡ kind.fill };
}
