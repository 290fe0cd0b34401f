// A new graph, and what a graph tells of itself.
ghost use Rattle.std.specs.Prelude.{◌≡◌, ◌≤◌, length};
ghost use Rattle.std.specs.List.{slice_get};
ghost use Rattle.graph_model.specs.WellFormed.{new_state};
ghost use Rattle.graph.specs.States.{state};

use super::Graph;
use rules::pair::Pair;
use rulesets::ruleset::RuleSet;
use stores::store::NodeStore;

// A graph's own limit, whatever a file may have: no crate of circuit files is below this one.
const MOST_INPUTS: u32 = 4096;

impl<R: RuleSet, S: NodeStore> Graph<R, S> {
    // A graph with no AND node, whatever the store held; more than 4,096 inputs count as 4,096.
    pub fn new(inputs: u32, rules: R, mut store: S) -> Graph<R, S>
        ensures graph { state result ≡ new_state inputs (S.model.limit store) (S.model.max_edge store) }
        ensures rules { result.rules ≡ rules }
    {
        store.truncate(0);
        Graph {
            inputs: inputs.min(MOST_INPUTS),
            rules,
            store,
        }
    }

    pub fn inputs(&self) -> u32
        ensures answer { result ≡ (state self.now).inputs }
        ensures limit { result ≤ 4096 }
    {
        self.inputs
    }

    // How many AND nodes there are.
    pub fn size(&self) -> u32
        ensures answer { result ≡ length (state self.now).pairs }
        ensures limit { result ≤ 1000000 }
    {
        self.store.len() as u32
    }

    // The pair stored at a position, the first being 0.
    pub fn pair(&self, at: usize) -> Option<Pair>
        ensures { result ≡ slice_get (state self.now).pairs at }
    {
        self.store.get(at)
    }
}
