// Names: parts of a text. Two are compared from their ends (R-4).
ghost use Rattle.std.specs.Prelude.{length, ◌≡◌};
ghost use Rattle.gfa_spec.specs.Bytes.{same, star};
ghost use Rattle.scan.specs.Differences.{DifferenceIs};
ghost use Rattle.scan.specs.Places.{Inside, bytes_in};

use crate::places::Place;

// Where do two strings of one length differ last? From the last byte back.
pub fn last_difference(s: &[u8], t: &[u8]) -> Option<usize>
    requires { length s.now ≡ length t.now }
    ensures { DifferenceIs s.now t.now result }
{
    for i in (0..s.len()).rev() {
        if s[i] != t[i] {
            return Some(i);
        }
    }
    None
}

// Are two strings the same bytes?
pub fn same_bytes(s: &[u8], t: &[u8]) -> bool
    ensures { result ≡ same s.now t.now }
{
    s.len() == t.len() && last_difference(s, t).is_none()
}

// Are the two names the same bytes?
pub fn same_name(text: &[u8], a: Place, b: Place) -> bool
    requires first { Inside text.now a }
    requires second { Inside text.now b }
    ensures { result ≡ same (bytes_in text.now a) (bytes_in text.now b) }
{
    same_bytes(a.of(text), b.of(text))
}

// Is it `*`?
pub fn is_star(s: &[u8]) -> bool
    ensures { result ≡ same s.now star }
{
    same_bytes(s, b"*")
}
