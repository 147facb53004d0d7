// The lines of the nodes, and the buckets of their lengths.
#![tactic(auto)]

pub mod buckets;
pub mod output;
