// A circuit file, reduced: read into a graph, written, and read back.
#![tactic(auto)]

pub mod compare;
pub mod error;
pub mod level;
pub mod limits;
pub mod message;
pub mod pressed;
pub mod reduce;
pub mod theorems;
