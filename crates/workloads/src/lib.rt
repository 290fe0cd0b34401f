// The generated inputs that `bench` measures: random numbers, circuits, graphs and questions; and how results are told.
#![tactic(auto)]

pub mod circuit;
pub mod growth;
pub mod kind;
pub mod question;
pub mod random;
pub mod told;
pub mod words;
