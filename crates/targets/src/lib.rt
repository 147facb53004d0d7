// Which segments are folded: a mark for each that is eligible, and for each that has a run of two or more on a path.
#![tactic(auto)]

pub mod eligible;
pub mod folded;
pub mod marks;
