// Blocks and their bits.
ghost use Rattle.std.specs.Prelude.{◌≡◌};
ghost use Rattle.values.specs.Blocks.{row};

use crate::block::Block;

impl Block {
    pub fn new(bits: u64) -> Block
        ensures { result.bits ≡ bits }
    {
        Block { bits }
    }

    pub fn bits(self) -> u64
        ensures { result ≡ self.bits }
    {
        self.bits
    }

    // Bit `i`, counted from the lowest; false from the 64th on.
    pub fn bit(self, i: u32) -> bool
        ensures { result ≡ row i self }
    {
        i < 64 && (self.bits >> i) % 2 == 1
    }
}
