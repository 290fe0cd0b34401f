// A graph's requests, run on a chained store of its own.
ghost use Rattle.std.specs.Prelude.{IfOk, min};
ghost use Rattle.values.specs.Bit.{bit_algebra};
ghost use Rattle.request_scripts.specs.Scripts.{Played};

use super::script::Script;
use chained_store::chained::ChainedStore;
use chained_store::record::ChainRecord;
use std::alloc::{AllocError, Global};
use stores::store::MAX_LIMIT;

// As many as a store can have, whatever the records.
const HEADS: usize = 65_536;

// The text of the answers.
pub fn played(heap: Global, script: &Script) -> Result<Vec<u8>, AllocError>
    ensures text { IfOk result (λ v. Played bit_algebra bit_algebra script.now.opening script.now.steps.items (min script.now.opening.records 1000000) 4294967295 v.items) }
{
    let count = (script.opening.records as usize).min(MAX_LIMIT);
    let mut records = vec![in heap; ChainRecord::EMPTY; count]?;
    let mut heads = vec![in heap; 0u32; HEADS]?;
    script.run::<bool, bool, ChainedStore<'_>>(
        heap,
        ChainedStore::new(records.as_mut_slice(), heads.as_mut_slice()),
    )
}
