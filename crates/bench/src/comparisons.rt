// Two edges compared under every assignment of sixteen inputs, the most that a comparison takes.
ghost use Rattle.std.specs.Prelude.{IfOk};
ghost use Rattle.bench.specs.Counts.{Found};

use crate::measure::{Measure, Outcome};
use crate::store::{Job, run_over};
use anyhow::anyhow;
use questions::compare::compare;
use rulesets::levels::OptLevel;
use std::time::{Duration, Instant};
use stores::store::NodeStore;
use values::block::Block;
use workloads::growth::grow;
use workloads::kind::Kind;
use workloads::question::Question;
use workloads::random::Random;
use workloads::told::Counts;

// The smallest assignment under which the edges differ, if any, and how long it took to find out.
#[derive(Clone, Copy)]
pub(crate) struct Compared {
    nodes: u32,
    difference: Option<u32>,
    time: Duration,
}

impl Outcome for Compared {
    fn best(self, other: Compared) -> Compared {
        Compared {
            time: self.time.min(other.time),
            ..self
        }
    }
}

// The two edges compared, with random nodes beside them until there are so many.
pub(crate) fn compare_once<S: NodeStore + Drop>(
    rt: &HostRuntime,
    question: Question,
    nodes: u32,
    store: S,
) -> anyhow::Result<Compared>
    ensures { IfOk result (λ c. Found question c.difference) }
{
    // No rules, so that edges which mean the same stay two.
    let Ok((mut graph, x, y)) = question.ask(OptLevel::One, store) else {
        return Err(anyhow!("an operation was refused"));
    };
    if grow(&mut graph, &mut Random::new(), nodes).is_err() {
        return Err(anyhow!("an AND was refused"));
    }
    let mut blocks = vec![in rt.alloc(); Block::new(0); graph.nodes() as usize]?;
    let start = Instant::now(rt)?;
    let answer = compare(&graph, x, y, blocks.as_mut_slice());
    let time = start.elapsed(rt)?;
    let Ok(difference) = answer else {
        return Err(anyhow!("a comparison was refused"));
    };
    Ok(Compared {
        nodes: graph.size(),
        difference,
        time,
    })
}

#[derive(Clone, Copy)]
struct Comparison {
    question: Question,
    nodes: u32,
}

impl Job for Comparison {
    type Out = Compared;

    fn run<S: NodeStore + Drop>(&self, rt: &HostRuntime, store: S) -> anyhow::Result<Compared> {
        compare_once(rt, self.question, self.nodes, store)
    }
}

// Compares two edges, and prints the counts, the answer and the shortest time.
pub(crate) fn compare_edges(
    rt: &HostRuntime,
    kind: Kind,
    question: Question,
    nodes: u32,
    measure: Measure,
) -> anyhow::Result<()> {
    let job = Comparison { question, nodes };
    let best = measure.best_of(|| run_over(rt, kind, nodes as usize, &job))?;
    let counts = Counts::Comparison {
        question,
        nodes: best.nodes,
        difference: best.difference,
    };
    let line = counts.line(rt.alloc(), kind)?;
    print!(rt; "{line}")?;
    if let Measure::Times { .. } = measure {
        let time = best.time;
        print!(rt; ", compared {time:?}")?;
    }
    println!(rt; "")?;
    Ok(())
}
