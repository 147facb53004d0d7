// Rule 4 of "Folding" over the tables: the new paths, and their pairs.
#![tactic(auto)]

pub mod folding;
pub mod pairs;
pub mod paths;
pub mod turns;
