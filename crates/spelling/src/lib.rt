// What steps spell, and the first bad step.
#![tactic(auto)]

pub mod spelling;
