// The steps of P and W lines, put into the step table.
#![tactic(auto)]

pub mod fields;
pub mod p_steps;
pub mod step_field;
pub mod walks;
