// Erasures: a value was received, of size 1, or it was not, of size 0.
ghost use Rattle.soft.specs.Erasure.{erasure, erasure_laws};

use crate::soft::Soft;

// `true` is sign 1.
// Kept as a sign beside a size: a soft number has both, also at size zero.
// Kept beside whole numbers: with one struct over the type of the size both kinds would be one type to the contracts, where every size is a number, and a value of one could be taken for the other's.
#[derive(Clone, Copy)]
pub struct Erasure {
    pub sign: bool,
    pub size: u8,
}

impl Soft for Erasure {
    ghost kind = { erasure };

    ghost laws = { erasure_laws };

    fn sign(self) -> bool {
        self.sign
    }

    fn size(self) -> u32 {
        u32::from(self.size)
    }

    // Kept beside that of whole numbers: `^` and `min` of the library are all that a common function would hold.
    fn check(self, other: Erasure) -> Erasure {
        Erasure {
            sign: self.sign ^ other.sign,
            size: self.size.min(other.size),
        }
    }

    // Kept beside that of whole numbers: the sizes of joins differ by kind, the library has no trait with `abs_diff`, and what is left is one test. β is a bit.
    fn join(self, other: Erasure, beta: bool) -> Erasure {
        let turned = self.sign ^ beta;
        // Both sizes are made first, so that choosing one takes no jump.
        let larger = self.size.max(other.size);
        let difference = self.size.abs_diff(other.size);
        let size = if turned == other.sign {
            larger
        } else {
            difference
        };
        // Where the signs agree, both arms are the same.
        let sign = if self.size > other.size {
            turned
        } else {
            other.sign
        };
        Erasure { sign, size }
    }

    // Kept as a match: these are the bytes of the format.
    fn read(byte: u8) -> Option<Erasure> {
        match byte {
            0x30 => Some(Erasure {
                sign: false,
                size: 1,
            }),
            0x31 => Some(Erasure {
                sign: true,
                size: 1,
            }),
            0x3F => Some(Erasure {
                sign: false,
                size: 0,
            }),
            _ => None,
        }
    }

    // Kept beside that of whole numbers: each kind tells its own fill, which is its trait's promise.
    fn fill() -> Erasure {
        Erasure {
            sign: false,
            size: 0,
        }
    }
}
