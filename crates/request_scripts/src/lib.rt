// The requests of a graph, run as one history, and the text that they are answered.
#![tactic(auto)]

pub mod played;
pub mod script;
pub mod size;
pub mod step;
pub mod worked;
