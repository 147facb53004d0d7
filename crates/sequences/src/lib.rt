// Sequences, written: as a step of either orientation spells them, repeated, and as the report shows them.
#![tactic(auto)]

pub mod complement;
pub mod oriented;
pub mod preview;
pub mod repeated;
