// The rewritten text (document 01, rule 7), written from the tables.
#![tactic(auto)]

pub mod lines;
pub mod links;
pub mod news;
pub mod rewritten;
pub mod settled_graph;
