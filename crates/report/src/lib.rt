// The report: its totals, the nodes in their order, the whole text, the service.
#![tactic(auto)]

pub mod services;
pub mod summary;
pub mod totals;
