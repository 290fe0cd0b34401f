// The room that a circuit file asks for.
#![tactic(auto)]

pub mod room;
