// The links of the rewritten text: which are removed, which are kept, and which are added.
#![tactic(auto)]

pub mod adder;
pub mod lookup;
pub mod pairs;
pub mod settle;
pub mod tallies;
