// The complement of a byte.
ghost use Rattle.std.specs.Prelude.{◌≡◌};
ghost use Rattle.gfa_spec.specs.Sequences.{complement as complement_of};

// A and a give T, T and t give A, C and c give G, G and g give C, N and n give N; any other byte stays.
#[tactic(auto, unfolding(gfa_spec::specs::Sequences::complement))]
pub fn complement(b: u8) -> u8
    ensures { result ≡ complement_of b }
{
    match b {
        b'A' | b'a' => b'T',
        b'T' | b't' => b'A',
        b'C' | b'c' => b'G',
        b'G' | b'g' => b'C',
        b'N' | b'n' => b'N',
        _ => b,
    }
}
