// The records of a chained store.
ghost use Rattle.std.specs.Prelude.{◌≡◌};
ghost use Rattle.chained_store.specs.Chains.{target};

use rules::edge::Edge;
use rules::pair::Pair;

// A stored pair, and the link to the record before it in its chain: a number that `target` reads, since callers lend
// the memory and an `Option` would take twice as much of it.
#[derive(Clone, Copy, PartialEq, Eq, Debug)]
pub struct ChainRecord {
    pub(crate) pair: Pair,
    pub(crate) next: u32,
}

impl ChainRecord {
    // What memory for records may hold before it is lent.
    pub const EMPTY: ChainRecord = ChainRecord {
        pair: Pair {
            larger: Edge::FALSE,
            smaller: Edge::FALSE,
        },
        next: 0,
    };
}

// The record that a link leads to: 0 ends the chain, k + 1 leads to record k.
pub(crate) fn target(link: u32) -> Option<usize>
    ensures { result ≡ target link }
{
    (link as usize).checked_sub(1)
}
