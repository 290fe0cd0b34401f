// Graphs of many nodes, built by AND calls on random edges.
ghost use Rattle.std.specs.Prelude.{IfOk};
ghost use Rattle.bench.specs.Counts.{Grows};

use crate::measure::{Measure, Outcome};
use crate::store::{Job, run_over};
use anyhow::anyhow;
use graph::graph::Graph;
use rulesets::levels::OptLevel;
use std::time::{Duration, Instant};
use stores::store::NodeStore;
use workloads::circuit::INPUTS;
use workloads::growth::grow;
use workloads::kind::Kind;
use workloads::random::Random;
use workloads::told::Counts;

// How many calls it took, and how long.
#[derive(Clone, Copy)]
pub(crate) struct Built {
    calls: u64,
    nodes: u32,
    time: Duration,
}

impl Outcome for Built {
    fn best(self, other: Built) -> Built {
        Built {
            time: self.time.min(other.time),
            ..self
        }
    }
}

// A new graph grown to so many nodes.
pub(crate) fn build_once<S: NodeStore + Drop>(
    rt: &HostRuntime,
    nodes: u32,
    store: S,
) -> anyhow::Result<Built>
    ensures { IfOk result (λ b. Grows nodes (S.model.limit store) (S.model.max_edge store) b.calls b.nodes) }
{
    let mut random = Random::new();
    let mut graph = Graph::new(INPUTS, OptLevel::Three, store);
    let start = Instant::now(rt)?;
    let grown = grow(&mut graph, &mut random, nodes);
    let time = start.elapsed(rt)?;
    let Ok(calls) = grown else {
        return Err(anyhow!("an AND was refused"));
    };
    Ok(Built {
        calls,
        nodes: graph.size(),
        time,
    })
}

#[derive(Clone, Copy)]
struct Growth {
    nodes: u32,
}

impl Job for Growth {
    type Out = Built;

    fn run<S: NodeStore + Drop>(&self, rt: &HostRuntime, store: S) -> anyhow::Result<Built> {
        build_once(rt, self.nodes, store)
    }
}

// Builds one graph, and prints its counts and the shortest time.
pub(crate) fn build_graph(
    rt: &HostRuntime,
    kind: Kind,
    nodes: u32,
    measure: Measure,
) -> anyhow::Result<()> {
    let job = Growth { nodes };
    let best = measure.best_of(|| run_over(rt, kind, nodes as usize, &job))?;
    let counts = Counts::Growth {
        calls: best.calls,
        nodes: best.nodes,
    };
    let line = counts.line(rt.alloc(), kind)?;
    print!(rt; "{line}")?;
    if let Measure::Times { .. } = measure {
        let time = best.time;
        print!(rt; ", built {time:?}")?;
    }
    println!(rt; "")?;
    Ok(())
}
