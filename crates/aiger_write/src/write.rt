// A graph's circuit file: measured first where it may not fit, so that a buffer that is too short is left as it was.
ghost use Rattle.std.specs.Prelude.{◌≡◌, ◌+◌, ◌*◌, ◌≤◌, length};
ghost use Rattle.graph.specs.States.{state};
ghost use Rattle.aiger_write.specs.Buffers.{put};
ghost use Rattle.aiger_write.specs.Writing.{text_of, all_inside, write_of, written};

use super::sink::Sink;
use graph::graph::Graph;
use graph_model::refusal::Refusal;
use rules::edge::Edge;
use rulesets::ruleset::RuleSet;
use stores::store::NodeStore;

// The limit of what is written; that of what is read is the check's, and neither crate uses the other's.
const MOST_OUTPUTS: usize = 4096;

// Whether every edge's node is in the graph.
fn are_inside<R: RuleSet, S: NodeStore>(graph: &Graph<R, S>, edges: &[Edge]) -> bool
    ensures { result ≡ all_inside (state graph.now) edges.now }
{
    edges.iter().all(|edge| graph.contains(*edge))
}

// The whole text from the buffer's start on, as far as the buffer goes, and its length. The buffer is the caller's.
fn put_circuit<R: RuleSet, S: NodeStore>(
    graph: &Graph<R, S>,
    outputs: &[Edge],
    text: &mut [u8],
) -> usize
    requires { length outputs.now ≤ 4096 }
    ensures answer { result ≡ length (text_of (state graph.now) outputs.now) }
    ensures limit { result ≤ 59 + 11 * ((state graph.now).inputs + length outputs.now) + 33 * length (state graph.now).pairs }
    ensures text { text.new ≡ put text.old 0 (text_of (state graph.now) outputs.now) }
{
    let inputs = graph.inputs();
    let ands = graph.size();
    let mut sink = Sink { text, at: 0 };
    // The header: the largest variable, and how many inputs, latches, outputs and gates there are.
    sink.put_bytes(b"aag ");
    sink.put_line(&[inputs + ands, inputs, 0, outputs.len() as u32, ands]);
    for j in 0..inputs {
        sink.put_line(&[2 * (j + 1)]);
    }
    for edge in outputs {
        sink.put_line(&[edge.0]);
    }
    for (i, pair) in graph.pairs().enumerate() {
        let node = inputs + 1 + i as u32;
        sink.put_line(&[2 * node, pair.larger.0, pair.smaller.0]);
    }
    sink.at
}

// The text's length, with the text at the buffer's start. The caller lends the buffer, a form that the project fixes.
pub fn write_circuit<R: RuleSet, S: NodeStore>(
    graph: &Graph<R, S>,
    outputs: &[Edge],
    text: &mut [u8],
) -> Result<usize, Refusal>
    ensures answer { result ≡ write_of (state graph.now) outputs.now text.old }
    ensures text { text.new ≡ written (state graph.now) outputs.now text.old }
{
    if outputs.len() > MOST_OUTPUTS {
        return Err(Refusal::TooManyOutputs);
    }
    if !are_inside(graph, outputs) {
        return Err(Refusal::NoNode);
    }
    // No number takes more than ten digits, so that a large buffer needs no measuring.
    let most = 59 + 11 * (graph.inputs() as usize + outputs.len()) + 33 * graph.size() as usize;
    if text.len() < most && put_circuit(graph, outputs, &mut []) > text.len() {
        return Err(Refusal::TextTooLong);
    }
    Ok(put_circuit(graph, outputs, text))
}
