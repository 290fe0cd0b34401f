// What a rule set sees of a pair, and what it replies.
ghost use Rattle.std.specs.Prelude.{◌≡◌};
ghost use Rattle.rules.specs.Windows.{plain_children, complemented_children, below, any_below, related};

use crate::edge::Edge;
use crate::pair::Pair;

// An edge of a pair, and the children of its node where that is an AND node.
#[derive(Clone, Copy, PartialEq, Eq, Debug)]
pub struct Operand {
    pub edge: Edge,
    pub children: Option<Pair>,
}

impl Operand {
    // The children, where the edge is a plain AND edge.
    pub fn plain_children(self) -> Option<Pair>
        ensures { result ≡ plain_children self }
    {
        self.children.filter(|_| !self.edge.is_complemented())
    }

    // The children, where the edge is a complemented AND edge.
    pub fn complemented_children(self) -> Option<Pair>
        ensures { result ≡ complemented_children self }
    {
        self.children.filter(|_| self.edge.is_complemented())
    }

    // The edge's node is a child of the operand.
    fn has_below(self, e: Edge) -> bool
        ensures { result ≡ below self e }
    {
        self.children.is_some_and(|c| c.larger.node() == e.node() || c.smaller.node() == e.node())
    }

    // A node is a child of both operands.
    fn shares_below(self, other: Operand) -> bool
        ensures { result ≡ any_below self other.children }
    {
        other
            .children
            .is_some_and(|c| self.has_below(c.larger) || self.has_below(c.smaller))
    }
}

// A pair, each edge with its children.
#[derive(Clone, Copy, PartialEq, Eq, Debug)]
pub struct Window {
    pub larger: Operand,
    pub smaller: Operand,
}

impl Window {
    // The node of one operand is a child of the other, or a node is a child of both.
    pub fn is_related(self) -> bool
        ensures { result ≡ related self }
    {
        self.larger.has_below(self.smaller.edge)
            || self.smaller.has_below(self.larger.edge)
            || self.larger.shares_below(self.smaller)
    }
}

// The AND's edge, a pair with the same AND, or that the pair is to be stored.
#[derive(Clone, Copy, PartialEq, Eq, Debug)]
pub enum Reply {
    Edge(Edge),
    Pair(Pair),
    Store,
}
