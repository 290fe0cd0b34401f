// Histories of graphs: any list of requests, made of a new graph.
#![tactic(auto)]

pub mod history;
mod session;
