// A sequence as a step of either orientation spells it.
ghost use Rattle.gfa_spec.specs.Sequences.{complement as complement_of, reverse_complement, oriented};
ghost use Rattle.writers.specs.Writers.{Puts};

use crate::complement::complement;
use writers::writer::Writer;

// A sequence reversed, each byte complemented.
pub fn put_reversed(w: &mut Writer, s: &[u8])
    ensures { Puts w.old (reverse_complement complement_of s.now) w.new }
{
    let at = w.at;
    let room = w.room(s.len());
    let out = &mut *w.out;
    for i in 0..room {
        out[at + i] = complement(s[s.len() - 1 - i]);
    }
    w.skip(s.len());
}

// A sequence as a step of this orientation spells it, by its sign: reversed for `-`, and for any other number as it is.
pub fn put_oriented(w: &mut Writer, s: &[u8], mark: usize)
    ensures { Puts w.old (oriented complement_of mark s.now) w.new }
{
    if mark == b'-' as usize {
        put_reversed(w, s);
    } else {
        w.put(s);
    }
}
