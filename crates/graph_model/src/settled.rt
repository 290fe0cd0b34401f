// What becomes of two operands.
use rules::edge::Edge;
use rules::pair::Pair;

// An edge that means their AND, or a pair to store that does. Neither is a failure, so that this is no `Result`.
#[derive(Clone, Copy, PartialEq, Eq, Debug)]
pub enum Settled {
    Answered(Edge),
    ToStore(Pair),
}
