// A circuit file, reduced under one of the optimisation levels.
ghost use Rattle.rules.specs.RuleLists.{by_rules};
ghost use Rattle.rulesets.specs.Levels.{level_rules};
ghost use Rattle.std.specs.Prelude.{IfOk};
ghost use Rattle.reduction.specs.Meaning.{SaysSame};
ghost use Rattle.reduction.specs.Reductions.{Reduces};

use super::error::ReduceError;
use super::limits::Limits;
use super::reduce::reduce;
use rulesets::levels::OptLevel;
use std::alloc::Global;
use stores::store::NodeStore;
use values::value::Value;

// The same with the level's list of rules: the first of them that fits decides. The contract names that list, which
// is why this is no instance of the other.
pub fn reduce_at<V: Value, S: NodeStore + Drop>(
    heap: Global,
    bytes: &[u8],
    level: OptLevel,
    store: S,
    spare: S,
    limits: Limits,
) -> Result<Vec<u8>, ReduceError>
    ensures answer { Reduces (by_rules (level_rules level)) bytes.now limits (S.model.limit store) (S.model.max_edge store) (S.model.limit spare) (S.model.max_edge spare) result }
    ensures cases { IfOk result (λ text. SaysSame V.Value.algebra bytes.now text.items) }
{
    reduce::<V, OptLevel, S>(heap, bytes, level, store, spare, limits)
}
