// The value of every node of a graph, from one value for each input.
ghost use Rattle.std.specs.Prelude.{◌≡◌, ◌+◌, ◌<◌, ◌≤◌, ◌∷◌, ◌++◌, length, take, drop, Ok};
ghost use Rattle.graph_model.specs.Graphs.{nodes, grown};
ghost use Rattle.graph.specs.States.{state};
ghost use Rattle.questions.specs.Evaluation.{evaluation, evaluated};
ghost use Rattle.questions.specs.Valuations.{Valuation};

use crate::value::pair_value;
use graph::graph::Graph;
use graph_model::refusal::Refusal;
use rulesets::ruleset::RuleSet;
use stores::store::NodeStore;
use values::value::Value;

// The constant and the inputs.
fn fill_inputs<V: Value>(inputs: &[V], values: &mut [V])
    requires { length inputs.now < length values.old }
    ensures { values.new ≡ (V.algebra.bottom ∷ inputs.now) ++ drop (1 + length inputs.now) values.old }
{
    values[0] = V::bottom();
    values[1..1 + inputs.len()].copy_from_slice(inputs);
}

// Each AND node from the nodes before it; an edge to a later node, which no graph has, counts as false.
fn fill_ands<V: Value, R: RuleSet, S: NodeStore>(graph: &Graph<R, S>, values: &mut [V])
    requires { nodes (state graph.now) ≤ length values.old }
    ensures { values.new ≡ grown V.Value.algebra (take ((state graph.now).inputs + 1) values.old) (state graph.now).pairs ++ drop (nodes (state graph.now)) values.old }
{
    let first = graph.inputs() as usize + 1;
    for (i, pair) in graph.pairs().enumerate() {
        values[first + i] = pair_value(&values[..first + i], pair);
    }
}

// Fills the list with the value of every node, the constant first, from one value for each input.
pub fn evaluate<V: Value, R: RuleSet, S: NodeStore>(
    graph: &Graph<R, S>,
    inputs: &[V],
    values: &mut [V],
) -> Result<(), Refusal>
    ensures answer { result ≡ evaluation (state graph.now) (length inputs.now) (length values.old) }
    ensures values { values.new ≡ evaluated V.Value.algebra (state graph.now) inputs.now values.old }
    ensures well { result ≡ Ok tt → Valuation V.Value.algebra (state graph.now) inputs.now values.new }
{
    if inputs.len() != graph.inputs() as usize || values.len() < graph.nodes() as usize {
        return Err(Refusal::Values);
    }
    fill_inputs(inputs, values);
    fill_ands(graph, values);
    Ok(())
}
