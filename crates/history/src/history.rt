// A new graph, and any list of requests made of it.
ghost use Rattle.std.specs.Prelude.{◌≡◌, map as each_of, IfOk};
ghost use Rattle.graph.specs.States.{state};
ghost use Rattle.history_model.specs.Histories.{told, new_world};
ghost use Rattle.history_model.specs.Law.{Ran};

use super::session::Session;
use graph::graph::Graph;
use history_model::request::{Answer, Request};
use rulesets::ruleset::RuleSet;
use std::alloc::{AllocError, Global};
use stores::store::NodeStore;
use values::value::Value;

// Makes a graph with so many inputs, and any list of requests of it.
// The law speaks of any Boolean algebra V; evaluations are in bits, blocks, tables or in any algebra W.
pub fn run<V: Value, W: Value, R: RuleSet + Drop, S: NodeStore + Drop>(
    heap: Global,
    inputs: u32,
    rules: R,
    store: S,
    requests: &[Request<'_, W>],
) -> Result<(Graph<R, S>, Vec<Answer<W>>), AllocError>
    ensures ran { IfOk result (λ o. Ran V.Value.algebra W.Value.algebra (R.replies rules) (new_world inputs (S.model.limit store) (S.model.max_edge store)) requests.now (each_of told o.1.items) (state o.0)) }
    ensures rules { IfOk result (λ o. o.0.rules ≡ rules) }
{
    let mut session = Session::new(heap, inputs, rules, store);
    let mut answers = Vec::new(heap);
    for request in requests {
        answers.push(session.answer(*request)?)?;
    }
    Ok((session.into_graph(), answers))
}
