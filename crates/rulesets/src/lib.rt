// Rule sets: what answers the window of a pair.
#![tactic(auto)]

pub mod levels;
pub mod ruleset;
