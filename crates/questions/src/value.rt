// What nodes, edges and pairs mean, read from a list of node values; a node past its end counts as false.
ghost use Rattle.std.specs.Prelude.{◌≡◌};
ghost use Rattle.rules.specs.Meaning.{means, pair_means};
ghost use Rattle.graph_model.specs.Graphs.{at};

use rules::edge::Edge;
use rules::pair::Pair;
use values::value::Value;

fn node_value<V: Value>(values: &[V], node: usize) -> V
    ensures { result ≡ at V.algebra values.now node }
{
    values.get(node).copied().unwrap_or(V::bottom())
}

pub fn edge_value<V: Value>(values: &[V], edge: Edge) -> V
    ensures { result ≡ means V.algebra (at V.algebra values.now) edge }
{
    let value = node_value(values, edge.node() as usize);
    if edge.is_complemented() {
        value.not()
    } else {
        value
    }
}

// The AND of the pair's two edges.
pub(crate) fn pair_value<V: Value>(values: &[V], pair: Pair) -> V
    ensures { result ≡ pair_means V.algebra (at V.algebra values.now) pair }
{
    edge_value(values, pair.larger).and(edge_value(values, pair.smaller))
}
