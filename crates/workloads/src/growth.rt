// Graphs grown by AND requests on random edges.
ghost use Rattle.std.specs.Prelude.{◌≡◌};
ghost use Rattle.graph_model.specs.WellFormed.{Extends};
ghost use Rattle.graph.specs.States.{state, replies};
ghost use Rattle.workloads.specs.Growths.{grown_to};

use crate::random::Random;
use graph::graph::Graph;
use graph_model::refusal::Refusal;
use rules::edge::Edge;
use rulesets::ruleset::RuleSet;
use stores::store::NodeStore;

// Asks for the AND of random edges until there are so many AND nodes, four times as often at most: how often it asked.
pub fn grow<R: RuleSet, S: NodeStore>(
    graph: &mut Graph<R, S>,
    random: &mut Random,
    nodes: u32,
) -> Result<u64, Refusal>
    ensures answer { result ≡ (grown_to (replies graph.old) nodes (state graph.old) random.old.state).answer }
    ensures graph { state graph.new ≡ (grown_to (replies graph.old) nodes (state graph.old) random.old.state).graph }
    ensures state { random.new.state ≡ (grown_to (replies graph.old) nodes (state graph.old) random.old.state).state }
    ensures rules { graph.new.rules ≡ graph.old.rules }
    ensures kept { Extends (state graph.old) (state graph.new) }
{
    let most = 4 * u64::from(nodes);
    for calls in 0..most {
        if graph.size() >= nodes {
            return Ok(calls);
        }
        let edges = 2 * graph.nodes();
        let x = Edge(random.below(edges));
        let y = Edge(random.below(edges));
        graph.and(x, y)?;
    }
    Ok(most)
}
