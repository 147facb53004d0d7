// The tables of a text: where they are, and their rows by number.
#![tactic(auto)]

pub mod entry;
pub mod graph;
pub mod kinds;
pub mod path_steps;
pub mod rows;
pub mod segments;
pub mod tables;
