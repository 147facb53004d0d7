// What a normalization returns: the text as it came, or folded (rules 3 to 7), and the statistics.
#![tactic(auto)]

pub mod folding;
pub mod returning;
pub mod rewriting;
pub mod stats;
pub mod written;
