// The interface of a node store: a list of pairs, a limit and a largest edge.
ghost use Rattle.std.specs.Prelude.{◌≡◌, length, take, is_ok};
ghost use Rattle.std.specs.List.{slice_get};
ghost use Rattle.rules.specs.declared.pair.Pair.{Pair};
ghost use Rattle.stores.specs.Stored.{StoreModel, First, position, accepts, joined};

use rules::pair::Pair;

// No store keeps more pairs; a longer slice is used up to here.
pub const MAX_LIMIT: usize = 1_000_000;

// The store is full, or an edge is above the largest that it keeps.
#[derive(Clone, Copy, PartialEq, Eq, Debug)]
pub struct AppendRefused;

pub trait NodeStore {
    // The stored pairs, how many fit, the largest edge that can be kept, and their laws.
    ghost model: { StoreModel Self };

    fn len(&self) -> usize
        ensures { result ≡ length (model.pairs self.now) };

    fn limit(&self) -> usize
        ensures { result ≡ model.limit self.now };

    // The pair at a position, or none outside the list.
    fn get(&self, at: usize) -> Option<Pair>
        ensures { result ≡ slice_get (model.pairs self.now) at };

    // The first position that holds the pair.
    fn find(&self, pair: Pair) -> Option<usize>
        ensures answer { result ≡ position pair (model.pairs self.now) }
        ensures first { First (model.pairs self.now) pair result };

    // Refused exactly when the store is full or an edge exceeds the largest edge.
    fn append(&mut self, pair: Pair) -> Result<(), AppendRefused>
        ensures answer { is_ok result ≡ accepts (model.limit self.old) (model.max_edge self.old) (model.pairs self.old) pair }
        ensures list { model.pairs self.new ≡ joined (model.limit self.old) (model.max_edge self.old) (model.pairs self.old) pair }
        ensures limit { model.limit self.new ≡ model.limit self.old }
        ensures edges { model.max_edge self.new ≡ model.max_edge self.old };

    // Keeps the first n pairs, or all when there are fewer.
    fn truncate(&mut self, n: usize)
        ensures list { model.pairs self.new ≡ take n (model.pairs self.old) }
        ensures limit { model.limit self.new ≡ model.limit self.old }
        ensures edges { model.max_edge self.new ≡ model.max_edge self.old };
}
