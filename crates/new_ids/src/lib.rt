// The IDs of nodes (document 01, rule 5): those of the segments of the text, and those that new segments get.
#![tactic(auto)]

pub mod candidates;
pub mod ids;
pub mod rows;
