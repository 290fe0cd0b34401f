// Values that an edge can mean: the elements of a Boolean algebra.
#![tactic(auto)]

pub mod bit;
pub mod block;
pub mod cofactors;
pub mod columns;
pub mod value;
