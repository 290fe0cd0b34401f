// The four optimisation levels.
ghost use Rattle.std.specs.Prelude.{◌≡◌};
ghost use Rattle.rules.specs.RuleLists.{by_rules};
ghost use Rattle.rules.proofs.RuleLists.{rules_lawful};
ghost use Rattle.rulesets.specs.Levels.{level_rules};

use crate::ruleset::RuleSet;
use rules::rule::Rule;
use rules::rule_list::first_match;
use rules::window::{Reply, Window};

// The order in which rules are tried; each level has a first part of it.
const RULES: [Rule; 9] = [
    Rule::Contradiction,
    Rule::SharedContradiction,
    Rule::Subsumption,
    Rule::SharedSubsumption,
    Rule::Idempotence,
    Rule::Resolution,
    Rule::Substitution,
    Rule::SharedSubstitution,
    Rule::SharedIdempotence,
];

#[derive(Clone, Copy, PartialEq, Eq, Debug)]
pub enum OptLevel {
    // No rule: every pair that comes here is stored.
    One,
    // The rules that reply an edge.
    Two,
    // Also substitution, which rewrites a pair below one of its operands.
    Three,
    // Also symmetric idempotence.
    Four,
}

impl OptLevel {
    pub fn rules(self) -> &'static [Rule]
        ensures { result.now ≡ level_rules self }
    {
        match self {
            OptLevel::One => &[],
            OptLevel::Two => &RULES[..6],
            OptLevel::Three => &RULES[..8],
            OptLevel::Four => &RULES,
        }
    }
}

impl RuleSet for OptLevel {
    ghost replies = { λ level w. by_rules (level_rules level) w };

    ghost lawful = { λ level. rules_lawful (level_rules level) };

    fn reply(&self, window: Window) -> Reply {
        first_match(self.rules(), window)
    }
}
