// A graph: its inputs, its rules and the store of its AND nodes.
ghost use Rattle.std.specs.Prelude.{◌≤◌};
ghost use Rattle.graph_model.specs.WellFormed.{Well};
ghost use Rattle.graph_model.specs.Stores.{state_of};

use rulesets::ruleset::RuleSet;
use stores::store::NodeStore;

mod calls;
mod derived;
mod nodes;
mod operations;
mod settling;

#[derive(Drop)]
pub struct Graph<R: RuleSet, S: NodeStore> {
    inputs: u32,
    rules: R,
    store: S,
    ghost few: { inputs ≤ 4096 },
    // every stored pair is new, earlier-pointing and irreducible under the graph's rules
    ghost well: { Well (R.replies rules) (state_of S.model inputs store) },
}
