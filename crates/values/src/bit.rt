// The bit, the smallest value algebra.
ghost use Rattle.values.specs.Bit.{bit_algebra};

use crate::value::Value;

impl Value for bool {
    ghost algebra = { bit_algebra };

    fn bottom() -> bool {
        false
    }

    fn not(self) -> bool {
        !self
    }

    fn and(self, other: bool) -> bool {
        self & other
    }
}
