// New IDs (document 01, rule 5): names made of a unit's name, a run length and a suffix, and numbers, written, summed and compared.
#![tactic(auto)]

pub mod names;
pub mod sanitized;
