// Questions to a graph, which leave it as it was.
#![tactic(auto)]

pub mod compare;
pub mod evaluate;
pub mod tabulate;
pub mod theorems;
pub mod value;
