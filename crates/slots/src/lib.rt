// Slots: the sum of a name, and rows of the work area found through slots (R-6).
#![tactic(auto)]

pub mod slots;
pub mod sums;
pub mod walks;
