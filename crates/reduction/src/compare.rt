// Whether two graphs store the same pairs, and a list begins with given edges.
ghost use Rattle.std.specs.Prelude.{◌≡◌, length, take, Decides};
ghost use Rattle.graph.specs.States.{state};

use graph::graph::Graph;
use rules::edge::Edge;
use rulesets::ruleset::RuleSet;
use stores::store::NodeStore;

// The sizes first: where they differ, no pair has to be looked at.
pub fn same_pairs<R: RuleSet, S: NodeStore>(first: &Graph<R, S>, second: &Graph<R, S>) -> bool
    ensures { Decides result ((state first.now).pairs ≡ (state second.now).pairs) }
{
    first.size() == second.size() && first.pairs().eq(second.pairs())
}

// Whether a list begins with these edges.
pub fn begins_with(list: &[Edge], edges: &[Edge]) -> bool
    ensures { Decides result (take (length edges.now) list.now ≡ edges.now) }
{
    list.starts_with(edges)
}
