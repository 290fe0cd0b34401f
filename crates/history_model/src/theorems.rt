// The law over histories, for every value algebra and every rule set, and a worked history.
ghost use Rattle.history_model.specs.Law.{LawKept, OfTwo};
ghost use Rattle.history_model.specs.Worked.{Worked};

use rulesets::ruleset::RuleSet;
use values::value::Value;

// Whatever is asked of a well-formed graph, in whatever order, the law holds of it.
pub fn histories_keep_the_law<V: Value, W: Value, R: RuleSet>()
    ensures laws { (r : R) → LawKept V.Value.algebra W.Value.algebra (R.RuleSet.replies r) }
    ensures cases { (r : R) → OfTwo V.Value.algebra W.Value.algebra (R.RuleSet.replies r) }
{}

// What happens at some requests, by their values.
pub fn worked_history()
    ensures { Worked }
{}
