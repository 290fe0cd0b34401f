// Circuit files in the ASCII AIGER format, written from a graph.
#![tactic(auto)]

mod sink;
pub mod theorems;
pub mod write;
