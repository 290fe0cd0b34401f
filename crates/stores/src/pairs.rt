// The pairs of a node store, one after another.
use crate::store::NodeStore;

mod calls;

// The pairs from a position on, in the order stored.
#[derive(Drop)]
pub struct Pairs<'a, S: NodeStore> {
    store: &'a S,
    next: usize,
}
