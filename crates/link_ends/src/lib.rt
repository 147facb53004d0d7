// The ends of the links of the text as node numbers, and which links are removed (document 01, rule 6).
#![tactic(auto)]

pub mod ends;
pub mod relinker;
