// Circuit files read into new graphs, and how the answers are told.
#![tactic(auto)]

mod answer;
pub mod sample;
