// Names with every byte that is not plain made `_`, written, summed and compared in place.
ghost use Rattle.std.specs.Prelude.{◌≡◌, cond};
ghost use Rattle.gfa_spec.specs.Bytes.{same};
ghost use Rattle.gfa_spec.specs.Sums.{sum_from};
ghost use Rattle.normalize_spec.specs.Folding.{is_plain, sanitized};
ghost use Rattle.writers.specs.Writers.{Puts};

use scan::names::last_difference;
use slots::sums::stepped;
use writers::writer::Writer;

// The byte itself, or `_`.
#[tactic(auto, unfolding(normalize_spec::specs::Folding::is_plain, gfa_spec::specs::Decimal::is_digit))]
pub fn plain_byte(b: u8) -> u8
    ensures { result ≡ cond (is_plain b) b 95 }
{
    match b {
        b'A'..=b'Z' | b'a'..=b'z' | b'0'..=b'9' | b'_' | b'.' | b':' | b'#' => b,
        _ => b'_',
    }
}

// A name, sanitized.
pub fn put_sanitized(w: &mut Writer, s: &[u8])
    ensures { Puts w.old (sanitized s.now) w.new }
{
    let at = w.at;
    let room = w.room(s.len());
    let out = &mut *w.out;
    for i in 0..room {
        out[at + i] = plain_byte(s[i]);
    }
    w.skip(s.len());
}

// The sum with all bytes of a name more, sanitized (R-6).
pub fn sanitized_sum(h: u32, s: &[u8]) -> u32
    ensures { result ≡ sum_from h (sanitized s.now) }
{
    let mut sum = h;
    for b in s {
        sum = stepped(sum, plain_byte(*b));
    }
    sum
}

// Are two names the same, sanitized? From their ends, by the bytes that differ (R-4): each is sought on the way to the next, so no `for`.
#[tactic(auto, using(crate::proofs::Likeness::comparing))]
pub fn same_sanitized(s: &[u8], t: &[u8]) -> bool
    ensures { result ≡ same (sanitized s.now) (sanitized t.now) }
{
    if s.len() != t.len() {
        return false;
    }
    let mut end = s.len();
    while let Some(i) = last_difference(&s[..end], &t[..end]) {
        if plain_byte(s[i]) != plain_byte(t[i]) {
            return false;
        }
        end = i;
    }
    true
}

// Is a name itself, sanitized? From its end.
fn is_plain(s: &[u8]) -> bool
    ensures { result ≡ same s.now (sanitized s.now) }
{
    for i in (0..s.len()).rev() {
        if s[i] != plain_byte(s[i]) {
            return false;
        }
    }
    true
}

// Is a name the unit's, sanitized?
#[tactic(auto, using(crate::proofs::Likeness::unlike, crate::proofs::Likeness::like_plain))]
pub fn is_sanitized(unit: &[u8], name: &[u8]) -> bool
    ensures { result ≡ same (sanitized unit.now) name.now }
{
    same_sanitized(unit, name) && is_plain(name)
}
