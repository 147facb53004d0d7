// The table of nodes with a self-link: its rows, what is counted in them, and the segments of its nodes.
#![tactic(auto)]

pub mod counters;
pub mod nodes;
pub mod segment;
