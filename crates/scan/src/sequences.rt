// Sequences that are parts of a text.
ghost use Rattle.std.specs.Prelude.{◌≡◌};
ghost use Rattle.gfa_spec.specs.Sequences.{sequence_len};

use crate::names::is_star;

// The length of a sequence; `*` has length 0.
#[tactic(auto, using(crate::proofs::SequenceLengths::length_of_star, crate::proofs::SequenceLengths::length_of_other))]
pub fn sequence_len(s: &[u8]) -> usize
    ensures { result ≡ sequence_len s.now }
{
    if is_star(s) { 0 } else { s.len() }
}
