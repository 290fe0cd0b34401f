// The calls of a pair.
ghost use Rattle.std.specs.Prelude.{◌≡◌};
ghost use Rattle.rules.specs.Pairs.{pair_of, has, other};

use super::Pair;
use crate::edge::Edge;

impl Pair {
    // The pair of two edges in either order.
    #[tactic(auto, using(crate::proofs::Edged::pair_path))]
    pub fn new(x: Edge, y: Edge) -> Pair
        ensures { result ≡ pair_of x y }
    {
        Pair {
            larger: x.max(y),
            smaller: x.min(y),
        }
    }

    pub fn has(self, e: Edge) -> bool
        ensures { result ≡ has self e }
    {
        self.larger == e || self.smaller == e
    }

    // The other edge, where `e` is one of the two.
    pub fn other(self, e: Edge) -> Option<Edge>
        ensures { result ≡ other self e }
    {
        if self.larger == e {
            Some(self.smaller)
        } else if self.smaller == e {
            Some(self.larger)
        } else {
            None
        }
    }
}
