// Bytes written from any place of a buffer on.
ghost use Rattle.writers.specs.Writers.{Wrote};

use crate::writer::Writer;

// All bytes of `s`, from place `at` on as far as there is room below the limit, and the place behind them. Any place may be asked: past the
// limit nothing is written, and the answer is the limit.
#[tactic(auto, using(crate::proofs::Writing::left_at))]
pub fn put_at(out: &mut [u8], at: usize, limit: usize, s: &[u8]) -> usize
    ensures { Wrote limit out.old at s.now out.new result }
{
    let mut w = Writer::at_place(out, at, limit);
    w.put(s);
    w.at
}
