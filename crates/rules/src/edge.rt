// Edges: a node and whether it is complemented.
ghost use Rattle.std.specs.Prelude.{◌≡◌};
ghost use Rattle.rules.specs.Edges.{node, complemented, complement};

// The number 2 · node, or 2 · node + 1 for the complemented edge.
#[derive(Clone, Copy, PartialEq, Eq, PartialOrd, Ord, Debug)]
pub struct Edge(pub u32);

impl Edge {
    pub const FALSE: Edge = Edge(0);

    pub const TRUE: Edge = Edge(1);

    // Stands where no edge is known, in the maps that callers lend as edges of four bytes each.
    pub const UNDEFINED: Edge = Edge(4_294_967_295);

    pub fn node(self) -> u32
        ensures { result ≡ node self }
    {
        self.0 / 2
    }

    pub fn is_complemented(self) -> bool
        ensures { result ≡ complemented self }
    {
        self.0 % 2 == 1
    }

    pub fn complement(self) -> Edge
        ensures { result ≡ complement self }
    {
        Edge(self.0 ^ 1)
    }
}
