// What becomes of a pair: the trivial cases, then the rules, and again.
ghost use Rattle.std.specs.Prelude.{◌≡◌};
ghost use Rattle.graph_model.specs.Requests.{trivial, operand, window, settlement};
ghost use Rattle.graph.specs.States.{state, replies};

use super::Graph;
use graph_model::settled::Settled;
use rules::edge::Edge;
use rules::pair::Pair;
use rules::window::{Operand, Reply, Window};
use rulesets::ruleset::RuleSet;
use stores::store::NodeStore;

// The AND of two edges where an operand is false or true, both are the same, or one is the other's complement.
fn trivial_and(x: Edge, y: Edge) -> Option<Edge>
    ensures { result ≡ trivial x y }
{
    if x == Edge::FALSE || y == Edge::FALSE {
        return Some(Edge::FALSE);
    }
    if x == Edge::TRUE {
        return Some(y);
    }
    if y == Edge::TRUE || x == y {
        return Some(x);
    }
    if x == y.complement() {
        return Some(Edge::FALSE);
    }
    None
}

impl<R: RuleSet, S: NodeStore> Graph<R, S> {
    fn operand(&self, edge: Edge) -> Operand
        ensures { result ≡ operand (state self.now) edge }
    {
        let position = edge.node().checked_sub(self.inputs + 1);
        let children = position.and_then(|at| self.store.get(at as usize));
        Operand { edge, children }
    }

    fn window(&self, pair: Pair) -> Window
        ensures { result ≡ window (state self.now) pair }
    {
        Window {
            larger: self.operand(pair.larger),
            smaller: self.operand(pair.smaller),
        }
    }

    // A rewriting lowers the sum of the two node numbers, so that the turns suffice. They are counted, since the rules
    // are a parameter: the loop ends whatever they reply.
    pub(crate) fn settle(&self, x: Edge, y: Edge) -> Settled
        ensures { result ≡ settlement (replies self.now) (state self.now) x y }
    {
        let mut u = x;
        let mut v = y;
        for _turn in 0..x.node() + y.node() + 1 {
            if let Some(edge) = trivial_and(u, v) {
                return Settled::Answered(edge);
            }
            let pair = Pair::new(u, v);
            match self.rules.reply(self.window(pair)) {
                Reply::Edge(edge) => return Settled::Answered(edge),
                Reply::Pair(next) => {
                    u = next.larger;
                    v = next.smaller;
                }
                Reply::Store => return Settled::ToStore(pair),
            }
        }
        Settled::ToStore(Pair::new(u, v))
    }
}
