// The block as a value algebra: each bit by itself.
ghost use Rattle.values.specs.Blocks.{block_algebra};

use crate::block::Block;
use crate::value::Value;

#[tactic(auto, using(crate::specs::Blocks::same_bits))]
impl Value for Block {
    ghost algebra = { block_algebra };

    fn bottom() -> Block {
        Block { bits: 0 }
    }

    fn not(self) -> Block {
        Block { bits: !self.bits }
    }

    fn and(self, other: Block) -> Block {
        Block {
            bits: self.bits & other.bits,
        }
    }
}
