// A circuit file, simulated: read into a graph, which is evaluated on every frame of a file.
ghost use Rattle.simulation.specs.Simulations.{Simulates};

use crate::answers::answer_frames;
use crate::error::SimulateError;
use crate::frames::read_frames;
use aiger_read::read::read_circuit;
use aiger_room::room::Room;
use graph::graph::Graph;
use rules::edge::Edge;
use rulesets::ruleset::RuleSet;
use std::alloc::Global;
use stores::store::NodeStore;

// The frames, each with the outputs of the circuit under it.
pub fn simulate<R: RuleSet + Drop, S: NodeStore + Drop>(
    heap: Global,
    circuit: &[u8],
    frames: &[u8],
    rules: R,
    store: S,
) -> Result<Vec<u8>, SimulateError>
    ensures { Simulates (R.replies rules) circuit.now frames.now (S.model.limit store) (S.model.max_edge store) result }
{
    let room = Room::of(circuit);
    let mut graph = Graph::new(room.inputs, rules, store);
    let mut map = vec![in heap; Edge::UNDEFINED; room.places]?;
    let mut outputs = vec![in heap; Edge::UNDEFINED; room.outputs]?;
    read_circuit(
        &mut graph,
        circuit,
        map.as_mut_slice(),
        outputs.as_mut_slice(),
    )?;
    let frames = read_frames(heap, frames, graph.inputs() as usize)?;
    Ok(answer_frames(heap, &graph, outputs.as_slice(), frames.as_slice())?)
}
