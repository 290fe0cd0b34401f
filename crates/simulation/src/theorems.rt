// What holds of every simulation, for every rule set.
ghost use Rattle.simulation.specs.Once.{OneSimulation};

use rulesets::ruleset::RuleSet;

// What a simulation answers is determined by the files, the rules and the store's room, unless memory runs out.
pub fn one_simulation<R: RuleSet>()
    ensures { (r : R) → OneSimulation (R.RuleSet.replies r) }
{}
