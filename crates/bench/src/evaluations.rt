// Graphs of random nodes, every node evaluated for 64 assignments at once.
ghost use Rattle.std.specs.Prelude.{IfOk};
ghost use Rattle.bench.specs.Counts.{Evaluates};

use crate::measure::{Measure, Outcome};
use crate::store::{Job, run_over};
use anyhow::anyhow;
use graph::graph::Graph;
use questions::evaluate::evaluate;
use rulesets::levels::OptLevel;
use std::time::{Duration, Instant};
use stores::store::NodeStore;
use values::block::Block;
use workloads::circuit::INPUTS;
use workloads::growth::grow;
use workloads::kind::Kind;
use workloads::random::Random;
use workloads::told::Counts;
use workloads::words::{random_blocks, xor_of};

// The XOR of all words, which pins them well enough, and how long it took to fill them.
#[derive(Clone, Copy)]
pub(crate) struct Evaluated {
    nodes: u32,
    xor: u64,
    time: Duration,
}

impl Outcome for Evaluated {
    fn best(self, other: Evaluated) -> Evaluated {
        Evaluated {
            time: self.time.min(other.time),
            ..self
        }
    }
}

// A new graph grown to so many nodes, and its nodes evaluated on random words.
pub(crate) fn evaluate_once<S: NodeStore + Drop>(
    rt: &HostRuntime,
    nodes: u32,
    store: S,
) -> anyhow::Result<Evaluated>
    ensures { IfOk result (λ e. Evaluates nodes (S.model.limit store) (S.model.max_edge store) e.nodes e.xor) }
{
    let heap = rt.alloc();
    let mut random = Random::new();
    let mut graph = Graph::new(INPUTS, OptLevel::Three, store);
    if grow(&mut graph, &mut random, nodes).is_err() {
        return Err(anyhow!("an AND was refused"));
    }
    let inputs = random_blocks(heap, &mut random, INPUTS)?;
    let mut values = vec![in heap; Block::new(0); graph.nodes() as usize]?;
    let start = Instant::now(rt)?;
    let answer = evaluate(&graph, inputs.as_slice(), values.as_mut_slice());
    let time = start.elapsed(rt)?;
    if answer.is_err() {
        return Err(anyhow!("an evaluation was refused"));
    }
    Ok(Evaluated {
        nodes: graph.size(),
        xor: xor_of(values.as_slice()),
        time,
    })
}

#[derive(Clone, Copy)]
struct Evaluation {
    nodes: u32,
}

impl Job for Evaluation {
    type Out = Evaluated;

    fn run<S: NodeStore + Drop>(&self, rt: &HostRuntime, store: S) -> anyhow::Result<Evaluated> {
        evaluate_once(rt, self.nodes, store)
    }
}

// Evaluates the nodes of one graph, and prints the counts and the shortest time.
pub(crate) fn evaluate_graph(
    rt: &HostRuntime,
    kind: Kind,
    nodes: u32,
    measure: Measure,
) -> anyhow::Result<()> {
    let job = Evaluation { nodes };
    let best = measure.best_of(|| run_over(rt, kind, nodes as usize, &job))?;
    let counts = Counts::Evaluation {
        nodes: best.nodes,
        xor: best.xor,
    };
    let line = counts.line(rt.alloc(), kind)?;
    print!(rt; "{line}")?;
    if let Measure::Times { .. } = measure {
        let time = best.time;
        print!(rt; ", evaluated {time:?}")?;
    }
    println!(rt; "")?;
    Ok(())
}
