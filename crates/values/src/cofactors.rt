// A function of one more input, by what it is where that input is false and where it is true.
ghost use Rattle.values.specs.Products.{product};

use crate::block::Block;
use crate::value::Value;

#[derive(Clone, Copy, PartialEq, Eq, Debug)]
pub struct Cofactors<V> {
    pub low: V,
    pub high: V,
}

// A function of eight inputs: 256 bits.
pub type Table = Cofactors<Cofactors<Block>>;

impl<V: Value> Value for Cofactors<V> {
    ghost algebra = { product V.Value.algebra };

    fn bottom() -> Cofactors<V> {
        Cofactors {
            low: V::bottom(),
            high: V::bottom(),
        }
    }

    fn not(self) -> Cofactors<V> {
        Cofactors {
            low: self.low.not(),
            high: self.high.not(),
        }
    }

    fn and(self, other: Cofactors<V>) -> Cofactors<V> {
        Cofactors {
            low: self.low.and(other.low),
            high: self.high.and(other.high),
        }
    }
}
