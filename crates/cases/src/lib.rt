// Lists of recorded cases: read, replayed in buffers that hold a pattern, and counted. docs/ANSWERS.md says the format.
#![tactic(auto)]

pub mod agreement;
pub mod buffers;
pub mod headers;
pub mod lists;
pub mod tallies;
