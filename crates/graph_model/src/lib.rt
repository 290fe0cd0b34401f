// The model of an and-inverter graph: its states, what its edges mean, and what a request for an AND or another operation gives.
#![tactic(auto)]

pub mod operation;
pub mod refusal;
pub mod settled;
