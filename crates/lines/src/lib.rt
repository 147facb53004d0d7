// A line: its sort, its record, and the rows it is put into.
#![tactic(auto)]

pub mod columns;
pub mod links;
pub mod new_line;
pub mod paths;
pub mod segments;
pub mod sort;
