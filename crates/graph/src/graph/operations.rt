// The AND of two edges.
ghost use Rattle.std.specs.Prelude.{◌≡◌};
ghost use Rattle.rules.specs.declared.edge.Edge.{Edge as an_edge};
ghost use Rattle.graph_model.specs.declared.settled.Settled.TheVariants.{ToStore};
ghost use Rattle.graph_model.specs.Graphs.{Inside};
ghost use Rattle.graph_model.specs.Requests.{place, settlement, and_of};
ghost use Rattle.graph_model.specs.Settling.{Ands};
ghost use Rattle.stores.specs.Stored.{position};
ghost use Rattle.graph.specs.States.{state, replies};

use super::Graph;
use graph_model::refusal::Refusal;
use graph_model::settled::Settled;
use rules::edge::Edge;
use rules::pair::Pair;
use rulesets::ruleset::RuleSet;
use stores::store::NodeStore;

impl<R: RuleSet, S: NodeStore> Graph<R, S> {
    // The plain edge of a pair's node, which is added where the pair is not stored yet. It answers as `and` does.
    // The clause on the rules, here and below, is of two moments, so that no invariant of the graph states it.
    fn find_or_add(&mut self, pair: Pair) -> Result<(Edge, bool), Refusal>
        requires { (x : an_edge) × (y : an_edge) × Inside (state self.old) x × Inside (state self.old) y × (settlement (replies self.old) (state self.old) x y ≡ ToStore pair) }
        ensures answer { result ≡ (place (state self.old) pair (position pair (state self.old).pairs)).answer }
        ensures graph { state self.new ≡ (place (state self.old) pair (position pair (state self.old).pairs)).after }
        ensures rules { self.new.rules ≡ self.old.rules }
    {
        if let Some(at) = self.store.find(pair) {
            return Ok((Edge(2 * (self.inputs + 1 + at as u32)), false));
        }
        let node = self.nodes();
        self.store.append(pair)?;
        Ok((Edge(2 * node), true))
    }

    // The edge, and whether a node was added: a tuple is the form that the project fixes here. The operands come in any
    // order, which a `Pair` has not, so that they stay two.
    pub fn and(&mut self, x: Edge, y: Edge) -> Result<(Edge, bool), Refusal>
        ensures answer { result ≡ (and_of (replies self.old) (state self.old) x y).answer }
        ensures graph { state self.new ≡ (and_of (replies self.old) (state self.old) x y).after }
        ensures rules { self.new.rules ≡ self.old.rules }
        ensures cases { Ands (replies self.old) (state self.old) x y result (state self.new) }
    {
        if !self.contains(x) || !self.contains(y) {
            return Err(Refusal::NoNode);
        }
        match self.settle(x, y) {
            Settled::Answered(edge) => Ok((edge, false)),
            Settled::ToStore(pair) => self.find_or_add(pair),
        }
    }
}
