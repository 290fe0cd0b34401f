// A node store over lent memory that finds a pair without looking through all of them.
#![tactic(auto)]

pub mod chained;
pub mod record;
