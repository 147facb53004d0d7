// The normalizer's tables: where they are in the work area, their rows by number, what folds a text with them (`Normalizer`), the new segments
// made so far (`News`), and a graph whose paths are transformed (`NewGraph`).
#![tactic(auto)]

pub mod layout;
pub mod new_graph;
pub mod news;
pub mod normalizer;
pub mod rows;
