// Why a call is refused, and where.
#![tactic(auto)]

pub mod reason;
pub mod refusal;
