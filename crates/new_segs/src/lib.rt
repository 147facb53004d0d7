// New segments over the tables: looked up by unit and run length, and made at first use (document 01, "Folding", rules 4 and 5).
#![tactic(auto)]

pub mod chains;
pub mod segs;
