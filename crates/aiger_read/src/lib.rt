// Circuit files in the ASCII AIGER format, read into a graph.
#![tactic(auto)]

mod gates;
pub mod read;
pub mod theorems;
