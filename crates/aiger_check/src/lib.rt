// Circuit files in the ASCII AIGER format: which are taken, and why any other is refused.
#![tactic(auto)]

pub mod buffers;
pub mod check;
mod checker;
pub mod faults;
pub mod header;
pub mod line;
mod name;
pub mod reader;
mod section;
