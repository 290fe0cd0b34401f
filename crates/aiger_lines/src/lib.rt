// Numbers in the lines of a circuit file, and lines made of numbers.
#![tactic(auto)]

pub mod fields;
pub mod number;
