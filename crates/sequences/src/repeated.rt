// A sequence repeated.
ghost use Rattle.std.specs.Prelude.{◌≡◌, ◌+◌, ◌*◌, ◌≤◌, min, length};
ghost use Rattle.std.proofs.lemmas.List.Edits.{sets};
ghost use Rattle.gfa_spec.specs.Bytes.{part, repeat};
ghost use Rattle.writers.specs.Writers.{Puts};

use writers::writer::Writer;

// `n` taken `times` times, or the limit where that comes first. It multiplies, and `forward` of crate cases adds.
fn product(n: usize, times: usize, limit: usize) -> usize
    ensures { result ≡ min (n * times) limit }
{
    n.saturating_mul(times).min(limit)
}

// The `n` bytes of `out` from `from` on, once more from `to` on: two places of one buffer. A loop, for the library's copies would want `memmove`
// of whoever links the archive.
fn copy_on(out: &mut [u8], from: usize, to: usize, n: usize)
    requires { (from + n ≤ to) × (to + n ≤ length out.old) }
    ensures { out.new ≡ sets out.old to (part from n out.old) }
{
    for i in 0..n {
        out[to + i] = out[from + i];
    }
}

// A string `times` times over: it is written once, and what stands there is copied on until there is no more room or need. Each turn doubles
// it, so that there are few turns, and each copies between places that do not overlap.
pub fn put_repeated(w: &mut Writer, s: &[u8], times: usize)
    ensures { Puts w.old (repeat times s.now) w.new }
{
    let at = w.at;
    let limit = w.limit;
    let size = product(s.len(), times, limit);
    let room = w.room(size);
    let mut filled = s.len().min(room);
    w.put(&s[..filled]);
    let out = &mut *w.out;
    // By doubling: a `for` over chunks of the string's size makes a copy for each time, 69 times slower for one base on a megabyte.
    while filled < room {
        let more = filled.min(room - filled);
        copy_on(out, at, at + filled, more);
        filled += more;
    }
    w.at = at;
    w.skip(size);
}
