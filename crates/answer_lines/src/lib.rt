// Lines of text that answer.
#![tactic(auto)]

pub mod answer;
mod listed;
pub mod short;
mod table;
pub mod worked;
