// What holds of the values of a graph's nodes, for every value algebra and every rule set.
ghost use Rattle.questions.specs.Valuations.{OneValuation};

use rulesets::ruleset::RuleSet;
use values::value::Value;

// In a well-formed graph, the values of the inputs determine the value of every node.
pub fn one_valuation<V: Value, R: RuleSet>()
    ensures { (r : R) → OneValuation V.Value.algebra (R.RuleSet.replies r) }
{}
