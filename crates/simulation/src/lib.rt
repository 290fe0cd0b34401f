// A circuit file, simulated on test frames.
#![tactic(auto)]

mod answers;
mod columns;
pub mod error;
pub mod frames;
pub mod simulate;
pub mod sized;
pub mod theorems;
pub mod worked;
