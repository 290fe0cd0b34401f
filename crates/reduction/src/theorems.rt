// What holds of every reduction, for every rule set.
ghost use Rattle.reduction.specs.Once.{OneReduction, LargeByLength};

use rulesets::ruleset::RuleSet;

// What a reduction answers is determined by the file, the rules, the limits and the stores' room, unless memory runs out.
pub fn one_reduction<R: RuleSet>()
    ensures { (r : R) → OneReduction (R.RuleSet.replies r) }
{}

// A file is refused for its size where it is over the limit, and nowhere else.
pub fn large_by_length<R: RuleSet>()
    ensures { (r : R) → LargeByLength (R.RuleSet.replies r) }
{}
