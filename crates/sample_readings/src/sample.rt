// A circuit file, read into a new graph.
ghost use Rattle.std.specs.Prelude.{IfOk};
ghost use Rattle.sample_readings.specs.Samples.{Tells};

use super::answer::answer_text;
use aiger_read::read::read_circuit;
use aiger_room::room::Room;
use graph::graph::Graph;
use rules::edge::Edge;
use rulesets::levels::OptLevel;
use std::alloc::{AllocError, Global};
use stores::store::NodeStore;

// Few, so that one of the circuits asks for more.
const MOST_PLACES: usize = 8_192;

// What the file is answered with, and how many nodes the graph then has stored.
#[derive(Debug, Drop)]
pub struct Told {
    pub answer: String,
    pub nodes: u32,
}

pub fn read_sample<S: NodeStore + Drop>(
    heap: Global,
    bytes: &[u8],
    store: S,
) -> Result<Told, AllocError>
    ensures { IfOk result (Tells bytes.now (S.model.limit store) (S.model.max_edge store)) }
{
    let room = Room::of(bytes);
    let mut map = vec![in heap; Edge::UNDEFINED; room.places.min(MOST_PLACES)]?;
    let mut outputs = vec![in heap; Edge::UNDEFINED; room.outputs]?;
    let mut graph = Graph::new(room.inputs, OptLevel::Three, store);
    let read = read_circuit(
        &mut graph,
        bytes,
        map.as_mut_slice(),
        outputs.as_mut_slice(),
    );
    let answer = answer_text(heap, read, outputs.as_slice())?;
    Ok(Told {
        answer,
        nodes: graph.size(),
    })
}
