// What the definitions say of some requests, windows and values, in numbers.
#![tactic(auto)]

ghost use Rattle.worked.specs.Replies.{WorkedReplies};
ghost use Rattle.worked.specs.Values.{WorkedValues};
ghost use Rattle.worked.specs.Worked.{Worked};

use rulesets::levels::OptLevel;
use rulesets::ruleset::RuleSet;
use values::value::Value;

// Every worked request answers and stores what it is to.
pub fn worked_requests()
    ensures { Worked }
{}

// Every worked window has its reply, or none, at each optimisation level.
pub fn worked_replies()
    ensures { WorkedReplies ⟦<OptLevel as RuleSet>⟧.replies }
{}

// Every worked value is the one defined.
pub fn worked_values()
    ensures { WorkedValues ⟦<bool as Value>⟧.algebra }
{}
