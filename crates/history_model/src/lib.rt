// Histories of graphs as mathematics: what a graph is asked, what it answers, and the laws that hold of any list of requests.
#![tactic(auto)]

pub mod request;
pub mod theorems;
