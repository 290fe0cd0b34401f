// A node store that finds a pair along the chain of the records with the same hash.
ghost use Rattle.std.specs.Prelude.{◌<◌, ◌≤◌, length};
ghost use Rattle.chained_store.specs.Chains.{Headed, Linked};

use crate::record::ChainRecord;

mod calls;
mod slots;

// The first `len` of the lent records are stored, as in a scan store; each head leads to the newest record of its chain.
// Heads are links as records hold them: numbers, since callers lend the memory and an `Option` would take twice as much.
#[derive(Drop)]
pub struct ChainedStore<'a> {
    records: &'a mut [ChainRecord],
    heads: &'a mut [u32],
    limit: usize,
    len: usize,
    ghost held: { len ≤ limit },
    ghost room: { limit ≤ length records.now },
    ghost few: { limit ≤ 1000000 },
    // a store that keeps anything has 1 to 65,536 heads
    ghost some: { 0 < limit → 0 < length heads.now },
    ghost many: { 0 < limit → length heads.now ≤ 65536 },
    // the heads and the links form the chains, newest record first
    ghost headed: { Headed records.now heads.now len },
    ghost linked: { Linked (length heads.now) records.now len },
}
