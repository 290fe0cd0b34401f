// Edges, pairs of edges, and the two-level rules for the AND of a pair.
#![tactic(auto)]

pub mod edge;
pub mod pair;
pub mod rule;
pub mod rule_list;
pub mod window;
