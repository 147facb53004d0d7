// A place in a buffer, at which pieces are written one behind the other. Each is written as far as there is room below a limit, and the place
// moves on behind it, but never passes the limit. So no writer has to be shown that its piece fits, no sum wraps, and on an empty buffer
// writing measures.
ghost use Rattle.std.specs.Prelude.{◌≡◌, ◌≤◌, ◌∷◌, [], ◌-◌, min, length};
ghost use Rattle.std.proofs.lemmas.List.Edits.{sets};

#[derive(Drop)]
pub struct Writer<'a> {
    pub out: &'a mut [u8],
    pub at: usize,
    pub limit: usize,
    ghost below: { at ≤ limit },
}

impl<'a> Writer<'a> {
    ghost use Rattle.writers.specs.Writers.{Starts, StartsAt, Puts, Skips};

    // At any place of a buffer; where that is past the limit, at the limit.
    pub fn at_place(out: &'a mut [u8], at: usize, limit: usize) -> Writer<'a>
        ensures same { result.out.ghost_name ≡ out.entry.ghost_name }
        ensures starts { StartsAt out.old at limit result }
    {
        let at = at.min(limit);
        Writer { out, at, limit }
    }

    // At the front of a buffer.
    pub fn new(out: &'a mut [u8], limit: usize) -> Writer<'a>
        ensures same { result.out.ghost_name ≡ out.entry.ghost_name }
        ensures starts { Starts out.old limit result }
    {
        Writer::at_place(out, 0, limit)
    }

    // All bytes of `s`.
    pub fn put(&mut self, s: &[u8])
        ensures { Puts self.old s.now self.new }
    {
        let more = s.len().min(self.limit - self.at);
        store(self.out, self.at, &s[..more]);
        self.at += more;
    }

    // How many of `n` bytes go into the buffer.
    pub fn room(&self, n: usize) -> usize
        ensures { result ≡ min n (min (length self.now.out.now) self.now.limit - self.now.at) }
    {
        let end = self.out.len().min(self.limit);
        if end <= self.at {
            return 0;
        }
        n.min(end - self.at)
    }

    // Moves on behind `n` bytes.
    pub fn skip(&mut self, n: usize)
        ensures { Skips self.old n self.new }
    {
        self.at += n.min(self.limit - self.at);
    }

    // One byte.
    pub fn put_byte(&mut self, b: u8)
        ensures { Puts self.old (b ∷ []) self.new }
    {
        if self.at < self.out.len().min(self.limit) {
            self.out[self.at] = b;
        }
        self.skip(1);
    }
}

// Stores `s` from place `at` on, as far as there is room. Byte by byte: the library's copy would want `memmove` of whoever links the archive.
fn store(out: &mut [u8], at: usize, s: &[u8])
    ensures { out.new ≡ sets out.old at s.now }
{
    let fits = s.len().min(out.len().saturating_sub(at));
    for i in 0..fits {
        out[at + i] = s[i];
    }
}
