// The two passes that make the node table: over the links, and over the steps of the paths.
#![tactic(auto)]

pub mod counting;
pub mod self_links;
pub mod visits;
