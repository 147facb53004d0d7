// The normalizer: its settings, and the service that folds self-loop runs.
#![tactic(auto)]

pub mod config;
pub mod services;
