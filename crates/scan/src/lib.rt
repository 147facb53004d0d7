// What is read of a text without tables: lines, fields, names, sequences and numbers.
#![tactic(auto)]

pub mod lines;
pub mod names;
pub mod numbers;
pub mod orientation;
pub mod places;
pub mod sequences;
pub mod split;
