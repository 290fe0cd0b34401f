// Node stores: lists of pairs over lent memory.
#![tactic(auto)]

pub mod pairs;
pub mod scan;
pub mod store;
