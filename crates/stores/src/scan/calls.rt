// The calls of a scan store.
ghost use Rattle.std.specs.Prelude.{◌≡◌, min, [], length};
ghost use Rattle.stores.specs.Scan.{scan_model};

use super::ScanStore;
use crate::store::{AppendRefused, MAX_LIMIT, NodeStore};
use rules::pair::Pair;

impl<'a> ScanStore<'a> {
    // An empty store over the records.
    pub fn new(records: &'a mut [Pair]) -> ScanStore<'a>
        ensures list { ⟦<ScanStore<'a> as NodeStore>⟧.model.pairs result ≡ [] }
        ensures limit { ⟦<ScanStore<'a> as NodeStore>⟧.model.limit result ≡ min (length records.old) 1000000 }
        ensures edges { ⟦<ScanStore<'a> as NodeStore>⟧.model.max_edge result ≡ 4294967295 }
    {
        ScanStore { records, len: 0 }
    }
}

impl<'a> NodeStore for ScanStore<'a> {
    ghost model = { scan_model };

    fn len(&self) -> usize {
        self.len
    }

    fn limit(&self) -> usize {
        self.records.len().min(MAX_LIMIT)
    }

    fn get(&self, at: usize) -> Option<Pair> {
        self.records[..self.len].get(at).copied()
    }

    // A loop over the records with their index is the form that the project fixes here.
    fn find(&self, pair: Pair) -> Option<usize> {
        for (i, stored) in self.records[..self.len].iter().enumerate() {
            if *stored == pair {
                return Some(i);
            }
        }
        None
    }

    fn append(&mut self, pair: Pair) -> Result<(), AppendRefused> {
        if self.len == self.limit() {
            return Err(AppendRefused);
        }
        self.records[self.len] = pair;
        self.len += 1;
        Ok(())
    }

    fn truncate(&mut self, n: usize) {
        self.len = self.len.min(n);
    }
}
