// The order of the nodes, by length or by rank: a stable merge sort of their numbers.
#![tactic(auto)]

pub mod merging;
pub mod order;
pub mod ranking;
