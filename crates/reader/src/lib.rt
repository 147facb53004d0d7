// The reader: a text is admitted, counted and read into tables.
#![tactic(auto)]

pub mod answers;
pub mod counting;
pub mod input;
pub mod reading;
