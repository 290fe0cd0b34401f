// The calls of a chained store.
ghost use Rattle.std.specs.Prelude.{◌≡◌, [], length};
ghost use Rattle.chained_store.specs.Chains.{capacity};
ghost use Rattle.chained_store.specs.Chained.{chained_model};

use super::ChainedStore;
use super::slots::{limit_of, slot_of};
use crate::record::{ChainRecord, target};
use rules::pair::Pair;
use stores::store::{AppendRefused, NodeStore};

impl<'a> ChainedStore<'a> {
    // An empty store; it keeps nothing unless there are 1 to 65,536 heads.
    pub fn new(records: &'a mut [ChainRecord], heads: &'a mut [u32]) -> ChainedStore<'a>
        ensures list { ⟦<ChainedStore<'a> as NodeStore>⟧.model.pairs result ≡ [] }
        ensures limit { ⟦<ChainedStore<'a> as NodeStore>⟧.model.limit result ≡ capacity (length records.old) (length heads.old) }
        ensures edges { ⟦<ChainedStore<'a> as NodeStore>⟧.model.max_edge result ≡ 4294967295 }
    {
        heads.fill(0);
        let limit = limit_of(records.len(), heads.len());
        ChainedStore {
            records,
            heads,
            limit,
            len: 0,
        }
    }
}

impl<'a> NodeStore for ChainedStore<'a> {
    ghost model = { chained_model };

    fn len(&self) -> usize {
        self.len
    }

    fn limit(&self) -> usize {
        self.limit
    }

    fn get(&self, at: usize) -> Option<Pair> {
        self.records[..self.len].get(at).map(|record| record.pair)
    }

    // A chain leads from newer to older records, so the last match on the way is the first position.
    fn find(&self, pair: Pair) -> Option<usize> {
        if self.len == 0 {
            return None;
        }
        let slot = slot_of(pair, self.heads.len());
        let mut link = self.heads[slot];
        let mut found = None;
        while let Some(at) = target(link) {
            let record = self.records[at];
            if record.pair == pair {
                found = Some(at);
            }
            link = record.next;
        }
        found
    }

    fn append(&mut self, pair: Pair) -> Result<(), AppendRefused> {
        if self.len == self.limit {
            return Err(AppendRefused);
        }
        let at = self.len;
        let slot = slot_of(pair, self.heads.len());
        let next = self.heads[slot];
        self.records[at] = ChainRecord { pair, next };
        self.heads[slot] = at as u32 + 1;
        self.len = at + 1;
        Ok(())
    }

    // Takes the records off their chains, the newest first. By place, since the length goes down with it.
    fn truncate(&mut self, n: usize) {
        for at in (n..self.len).rev() {
            let record = self.records[at];
            let slot = slot_of(record.pair, self.heads.len());
            self.heads[slot] = record.next;
            self.len = at;
        }
    }
}
