// Equal steps, maximal runs of them, and what is counted over the tables.
#![tactic(auto)]

pub mod counts;
pub mod runs;
