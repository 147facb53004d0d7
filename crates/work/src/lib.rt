// The work area: words that are read, rows that are stored.
#![tactic(auto)]

pub mod work;
