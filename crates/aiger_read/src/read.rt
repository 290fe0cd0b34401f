// A circuit file, read into a graph: checked as a whole first, so that a refused file leaves the graph as it was.
ghost use Rattle.std.specs.Prelude.{◌≡◌, ℕ, ◌/◌, ◌<◌, ◌≤◌, map as mapped, length, slice_index_or};
ghost use Rattle.rules.specs.Edges.{edge};
ghost use Rattle.graph.specs.States.{state, replies};
ghost use Rattle.aiger_check.specs.Reading.{all};
ghost use Rattle.aiger_read.specs.Requests.{through};
ghost use Rattle.aiger_read.specs.Reads.{Reads};

use super::gates::{edge_of, request_gates};
use aiger_check::buffers::clear;
use aiger_check::check::check;
use aiger_check::faults::CircuitFault;
use aiger_check::reader::Reader;
use graph::graph::Graph;
use rules::edge::Edge;
use rulesets::ruleset::RuleSet;
use stores::store::NodeStore;

// Passes over the first `n` lines, which the check has read.
fn skip(reader: &mut Reader<'_>, n: usize)
    requires start { reader.old.number ≡ 0 }
    requires there { n ≤ length (all reader.old) }
    ensures { (reader.new.bytes ≡ reader.old.bytes) × (reader.new.number ≡ n) }
{
    // The range counts lines and indexes nothing: the reader keeps its own place.
    for _i in 0..n {
        let _line = reader.next_bytes().unwrap();
    }
}

// The places hold literals, and each becomes its edge.
fn fill_outputs(map: &[Edge], outputs: &mut [Edge])
    requires { (j : ℕ) → j < length outputs.old → (slice_index_or outputs.old j (edge 0)).0 / 2 < length map.now }
    ensures { outputs.new ≡ mapped (λ e. through map.now e.0) outputs.old }
{
    for output in outputs.iter_mut() {
        *output = edge_of(map, output.0);
    }
}

// How many nodes were added, with each defined variable's edge in the map and the outputs' edges in `outputs`;
// or why the file is refused. The clause on the rules is of two moments, so that no type states it.
pub fn read_circuit<R: RuleSet, S: NodeStore>(
    graph: &mut Graph<R, S>,
    bytes: &[u8],
    map: &mut [Edge],
    outputs: &mut [Edge],
) -> Result<u32, CircuitFault>
    ensures answer { Reads (replies graph.old) bytes.now (state graph.old) map.old outputs.old result (state graph.new) map.new outputs.new }
    ensures rules { graph.new.rules ≡ graph.old.rules }
{
    let header = check(bytes, graph.inputs(), map, outputs)?;
    let mut reader = Reader::new(bytes);
    skip(&mut reader, (header.inputs + header.outputs) as usize + 1);
    match request_gates(graph, &mut reader, header, map) {
        Ok(added) => {
            fill_outputs(map, &mut outputs[..header.outputs as usize]);
            Ok(added)
        }
        // a match and no `map_err`, since both arms change the buffers
        Err(fault) => {
            clear(header, map, outputs);
            Err(CircuitFault::Line(fault))
        }
    }
}
