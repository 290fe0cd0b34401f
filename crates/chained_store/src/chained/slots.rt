// Which chain a pair joins, and how many pairs a store keeps.
ghost use Rattle.std.specs.Prelude.{◌≡◌, ◌<◌, ◌≤◌};
ghost use Rattle.chained_store.specs.Chains.{hash, slot, capacity};

use rules::pair::Pair;
use stores::store::MAX_LIMIT;

const MAX_HEADS: usize = 65_536;

// An odd number near 2^64 divided by the golden ratio: a product by it differs in its high bits where a factor differs anywhere.
const MULTIPLIER: u64 = 0x9E37_79B9_7F4A_7C15;

// A number below 2^32 in which every bit of both edges counts.
fn hash_of(pair: Pair) -> u64
    ensures { (result ≡ hash pair) × (result < 4294967296) }
{
    let edges = u64::from(pair.larger.0) << 32 | u64::from(pair.smaller.0);
    let spread = edges.wrapping_mul(MULTIPLIER);
    (spread ^ (spread >> 32)).wrapping_mul(MULTIPLIER) >> 32
}

// The chain that a pair joins, of as many as there are heads: the hash scaled down, without a division.
// `as`, since there is no `From` for `usize`; the casts lose nothing.
#[tactic(auto, using(crate::proofs::Slots::scaled_below), unfolding(crate::specs::Chains::slot))]
pub(super) fn slot_of(pair: Pair, heads: usize) -> usize
    requires { (0 < heads) × (heads ≤ 65536) }
    ensures { (result ≡ slot heads pair) × (result < heads) }
{
    ((hash_of(pair) * heads as u64) >> 32) as usize
}

// How many pairs a store keeps, by the number of its records and heads.
pub(super) fn limit_of(records: usize, heads: usize) -> usize
    ensures { result ≡ capacity records heads }
{
    match heads {
        1..=MAX_HEADS => records.min(MAX_LIMIT),
        _ => 0,
    }
}
