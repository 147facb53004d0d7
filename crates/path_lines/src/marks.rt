// How an orientation is written in W lines: `>` or `<`.
ghost use Rattle.std.specs.Prelude.{◌≡◌, cond, eqb};

// The mark before a step of a W line.
pub fn mark_of(o: usize) -> u8
    ensures { result ≡ cond (eqb o 43) 62 60 }
{
    if o == 43 { b'>' } else { b'<' }
}
