// The service that spells a path.
#![tactic(auto)]

pub mod services;
