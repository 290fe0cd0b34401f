// Pairs of edges, sorted in their type.
ghost use Rattle.std.specs.Prelude.{◌≤◌};

use crate::edge::Edge;

mod calls;

// Two edges, the larger first.
#[derive(Clone, Copy, PartialEq, Eq, Debug)]
pub struct Pair {
    pub larger: Edge,
    pub smaller: Edge,
    ghost sorted: { smaller.0 ≤ larger.0 },
}
