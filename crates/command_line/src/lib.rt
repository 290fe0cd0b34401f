// The arguments of a program, and the files that they name.
#![tactic(auto)]

pub mod arguments;
pub mod files;
pub mod names;
pub mod program;
