// The nodes of a graph.
ghost use Rattle.std.specs.Prelude.{◌≡◌, ◌≤◌, nat_lt};
ghost use Rattle.rules.specs.Edges.{node};
ghost use Rattle.stores.specs.Left.{left};
ghost use Rattle.graph_model.specs.Graphs.{nodes};
ghost use Rattle.graph.specs.States.{state};

use super::Graph;
use rules::edge::Edge;
use rulesets::ruleset::RuleSet;
use stores::pairs::Pairs;
use stores::store::NodeStore;

impl<R: RuleSet, S: NodeStore> Graph<R, S> {
    // How many nodes there are: the constant, the inputs and the AND nodes.
    pub fn nodes(&self) -> u32
        ensures answer { result ≡ nodes (state self.now) }
        ensures limit { result ≤ 1004097 }
    {
        self.inputs() + 1 + self.size()
    }

    // Whether the edge's node is in the graph.
    pub fn contains(&self, edge: Edge) -> bool
        ensures { result ≡ nat_lt (node edge) (nodes (state self.now)) }
    {
        edge.node() < self.nodes()
    }

    // The stored pairs, in the order stored.
    pub fn pairs(&self) -> Pairs<'_, S>
        ensures { left S.model result ≡ (state self.now).pairs }
    {
        Pairs::new(&self.store)
    }
}
