// The P and W lines of the rewritten text (document 01, rule 7): each with its new steps.
#![tactic(auto)]

pub mod marks;
pub mod paths;
