// A graph that is asked, with the memory for its answers and the outputs that it keeps.
ghost use Rattle.std.specs.Prelude.{◌≡◌, IfOk, OnOk};
ghost use Rattle.graph.specs.States.{replies};
ghost use Rattle.history_model.specs.Histories.{told, Happens, new_world};
ghost use Rattle.history.specs.Worlds.{world};

mod files;
mod queries;

use graph::graph::Graph;
use history_model::request::{Answer, Request};
use rules::edge::Edge;
use rulesets::ruleset::RuleSet;
use std::alloc::{AllocError, Global};
use stores::store::NodeStore;
use values::value::Value;

#[derive(Drop)]
pub struct Session<R: RuleSet, S: NodeStore> {
    heap: Global,
    graph: Graph<R, S>,
    // the outputs of the file that was taken last
    last: Vec<Edge>,
}

impl<R: RuleSet, S: NodeStore> Session<R, S> {
    pub(crate) fn new(heap: Global, inputs: u32, rules: R, store: S) -> Self
        ensures world { world result ≡ new_world inputs (S.model.limit store) (S.model.max_edge store) }
        ensures rules { result.graph.rules ≡ rules }
    {
        Session {
            heap,
            graph: Graph::new(inputs, rules, store),
            last: Vec::new(heap),
        }
    }

    pub(crate) fn into_graph(self) -> Graph<R, S>
        ensures { result ≡ self.graph }
    {
        self.graph
    }

    // One request. The clause on the rules, here and in each of its arms, is of two moments, so that no type states it.
    pub(crate) fn answer<W: Value>(
        &mut self,
        request: Request<'_, W>,
    ) -> Result<Answer<W>, AllocError>
        ensures rules { OnOk result (self.new.graph.rules ≡ self.old.graph.rules) }
        ensures cases { IfOk result (λ a. Happens W.Value.algebra (replies self.old.graph) (world self.old) request.entry (told a) (world self.new)) }
    {
        match request {
            Request::And(x, y) => Ok(Answer::And(self.graph.and(x, y))),
            Request::Apply(operation, x, y) => Ok(Answer::Apply(self.graph.apply(operation, x, y))),
            Request::Read {
                bytes,
                places,
                outputs,
            } => self.read(bytes, places, outputs),
            Request::Write { outputs, room } => self.write(outputs, room),
            Request::Evaluate { inputs, places } => self.evaluate(inputs, places),
            Request::Compare { x, y, places } => self.compare(x, y, places),
            Request::Tabulate { edge, places } => self.tabulate(edge, places),
            Request::Pairs => self.list_pairs(),
        }
    }
}
