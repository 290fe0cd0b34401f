// Lines of text that ask a graph.
#![tactic(auto)]

mod fields;
pub mod line;
pub mod lines;
pub mod number;
mod numbers;
pub mod parse;
pub mod sections;
pub mod word;
pub mod worked;
