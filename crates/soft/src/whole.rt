// Whole numbers: a sign and a size, sizes adding up.
ghost use Rattle.soft.specs.Whole.{whole, whole_laws, stop};

use crate::soft::Soft;

// The largest code has 1024 positions and a byte reads as a size of at most 127: 127 * 1024.
const STOP: u32 = 130048;

// `true` is sign 1.
// Kept as a sign beside a size: a soft number has both, also at size zero.
// Kept beside erasures: with one struct over the type of the size both kinds would be one type to the contracts, where every size is a number, and a value of one could be taken for the other's.
#[derive(Clone, Copy)]
pub struct Whole {
    pub sign: bool,
    pub size: u32,
}

impl Soft for Whole {
    ghost kind = { whole };

    ghost laws = { whole_laws stop };

    fn sign(self) -> bool {
        self.sign
    }

    fn size(self) -> u32 {
        self.size
    }

    // Kept beside that of erasures: `^` and `min` of the library are all that a common function would hold.
    fn check(self, other: Whole) -> Whole {
        Whole {
            sign: self.sign ^ other.sign,
            size: self.size.min(other.size),
        }
    }

    // Kept beside that of erasures: the sizes of joins differ by kind, the library has no trait with `abs_diff`, and what is left is one test. β is a bit.
    fn join(self, other: Whole, beta: bool) -> Whole {
        let turned = self.sign ^ beta;
        // Both sizes are made first, so that choosing one takes no jump.
        let sum = self.size.saturating_add(other.size).min(STOP);
        let difference = self.size.abs_diff(other.size);
        let size = if turned == other.sign {
            sum
        } else {
            difference
        };
        // Where the signs agree, both arms are the same.
        let sign = if self.size > other.size {
            turned
        } else {
            other.sign
        };
        Whole { sign, size }
    }

    fn read(byte: u8) -> Option<Whole> {
        Some(Whole {
            sign: byte >= 128,
            size: u32::from(byte % 128),
        })
    }

    // Kept beside that of erasures: each kind tells its own fill, which is its trait's promise.
    fn fill() -> Whole {
        Whole {
            sign: false,
            size: 0,
        }
    }
}
