// Going over the pairs of a node store.
ghost use Rattle.std.specs.Prelude.{◌≡◌};
ghost use Rattle.std.specs.Iterator.{YieldsFirst, item_count};
ghost use Rattle.stores.specs.Left.{left};

use super::Pairs;
use crate::store::NodeStore;
use rules::pair::Pair;

impl<'a, S: NodeStore> Pairs<'a, S> {
    pub fn new(store: &'a S) -> Pairs<'a, S>
        ensures { left S.model result ≡ S.model.pairs store.now }
    {
        Pairs { store, next: 0 }
    }
}

impl<'a, S: NodeStore> Iterator for Pairs<'a, S> {
    type Item = Pair;

    ghost next_gives = { YieldsFirst (left S.model) };

    ghost remaining = { item_count (left S.model) };

    fn next(&mut self) -> Option<Pair> {
        let pair = self.store.get(self.next)?;
        self.next += 1;
        Some(pair)
    }
}
