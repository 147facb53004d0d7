// The leaves that answers are made of: bytes and numbers, written.
#![tactic(auto)]

pub mod numbers;
pub mod pieces;
pub mod placed;
pub mod writer;
