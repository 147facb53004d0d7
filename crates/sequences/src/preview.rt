// A sequence as the report shows it.
ghost use Rattle.gfa_spec.specs.Sequences.{sequence_preview};
ghost use Rattle.writers.specs.Writers.{Puts};

use writers::writer::Writer;

// How many bytes are shown.
const SHOWN: usize = 48;

// Its first 48 bytes, and `...` if it is longer.
pub fn put_preview(w: &mut Writer, s: &[u8])
    ensures { Puts w.old (sequence_preview s.now) w.new }
{
    let whole = s.len() <= SHOWN;
    if whole {
        w.put(s);
    } else {
        w.put(&s[..SHOWN]);
        w.put(b"...");
    }
}
