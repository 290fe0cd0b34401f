// Random circuit files, read into a graph and written.
ghost use Rattle.std.specs.Prelude.{IfOk};
ghost use Rattle.bench.specs.Counts.{Presses};

use crate::measure::{Measure, Outcome};
use crate::store::{Job, run_over};
use aiger_read::read::read_circuit;
use aiger_write::write::write_circuit;
use anyhow::anyhow;
use graph::graph::Graph;
use rules::edge::Edge;
use rulesets::levels::OptLevel;
use std::time::{Duration, Instant};
use stores::store::NodeStore;
use workloads::circuit::{INPUTS, MOST_GATES, OUTPUTS, circuit};
use workloads::kind::Kind;
use workloads::told::Counts;

const TEXT: usize = 1_048_576;

// What a circuit came to, and how long the two steps took.
#[derive(Clone, Copy)]
pub(crate) struct Pressed {
    nodes: u32,
    written: usize,
    read_time: Duration,
    write_time: Duration,
}

impl Outcome for Pressed {
    fn best(self, other: Pressed) -> Pressed {
        Pressed {
            read_time: self.read_time.min(other.read_time),
            write_time: self.write_time.min(other.write_time),
            ..self
        }
    }
}

// A circuit file read into a new graph, and the graph written.
pub(crate) fn press_once<S: NodeStore + Drop>(
    rt: &HostRuntime,
    bytes: &[u8],
    gates: u32,
    store: S,
) -> anyhow::Result<Pressed>
    ensures { IfOk result (λ p. Presses bytes.now (S.model.limit store) (S.model.max_edge store) p.nodes p.written) }
{
    let heap = rt.alloc();
    let places = (gates.min(MOST_GATES) + INPUTS + 1) as usize;
    let mut map = vec![in heap; Edge::UNDEFINED; places]?;
    let mut outputs = vec![in heap; Edge::UNDEFINED; OUTPUTS as usize]?;
    let mut text = vec![in heap; 0u8; TEXT]?;
    let mut graph = Graph::new(INPUTS, OptLevel::Three, store);
    let start = Instant::now(rt)?;
    let read = read_circuit(
        &mut graph,
        bytes,
        map.as_mut_slice(),
        outputs.as_mut_slice(),
    );
    let read_time = start.elapsed(rt)?;
    let start = Instant::now(rt)?;
    let written = write_circuit(&graph, outputs.as_slice(), text.as_mut_slice());
    let write_time = start.elapsed(rt)?;
    let (Ok(nodes), Ok(written)) = (read, written) else {
        return Err(anyhow!("a generated circuit was refused"));
    };
    Ok(Pressed {
        nodes,
        written,
        read_time,
        write_time,
    })
}

#[derive(Clone, Copy)]
struct Press<'a> {
    bytes: &'a [u8],
    gates: u32,
}

impl Job for Press<'_> {
    type Out = Pressed;

    fn run<S: NodeStore + Drop>(&self, rt: &HostRuntime, store: S) -> anyhow::Result<Pressed> {
        press_once(rt, self.bytes, self.gates, store)
    }
}

// Reads and writes one circuit, and prints its counts and the shortest times. A line of a built graph has other counts.
pub(crate) fn press_circuit(
    rt: &HostRuntime,
    kind: Kind,
    gates: u32,
    measure: Measure,
) -> anyhow::Result<()> {
    let text = circuit(rt.alloc(), gates)?;
    let bytes = text.as_bytes();
    let job = Press { bytes, gates };
    let best = measure.best_of(|| run_over(rt, kind, gates as usize, &job))?;
    let counts = Counts::Circuit {
        gates,
        len: bytes.len(),
        nodes: best.nodes,
        written: best.written,
    };
    let line = counts.line(rt.alloc(), kind)?;
    print!(rt; "{line}")?;
    if let Measure::Times { .. } = measure {
        let read_time = best.read_time;
        let write_time = best.write_time;
        print!(rt; ", read {read_time:?}, write {write_time:?}")?;
    }
    println!(rt; "")?;
    Ok(())
}
