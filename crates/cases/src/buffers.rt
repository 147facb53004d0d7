// The buffers that a call gets: filled with a pattern, and compared afterwards.
ghost use Rattle.std.specs.Prelude.{◌≡◌, ◌≤◌, length, replicate};
ghost use Rattle.cases.specs.Cases.{Tells, LeftBytes, LeftWords};
ghost use Rattle.std.specs.List.{list_all};

// What the buffers hold before a call.
pub const BYTE: u8 = 165;

pub const WORD: u32 = 2779096485;

// Room for a whole list.
pub fn list_buffer() -> [u8; 262144] {
    [0; 262144]
}

// A work area.
pub fn work_buffer() -> [u32; 8192] {
    [0; 8192]
}

pub fn fill_bytes(out: &mut [u8])
    ensures { out.new ≡ replicate (length out.old) 165 }
{
    out.fill(BYTE);
}

pub fn fill_words(work: &mut [u32])
    ensures { work.new ≡ replicate (length work.old) 2779096485 }
{
    work.fill(WORD);
}

// Is each element this one?
fn all_are<T: PartialEq + Copy>(xs: &[T], x: T) -> bool
    ensures { result ≡ list_all (λ y. T.eq y x) xs.now }
{
    xs.iter().all(|y| *y == x)
}

// Does the buffer hold this output, and behind it what it held before the call?
#[tactic(auto, using(crate::proofs::Comparing::front_is, crate::proofs::Comparing::each_behind))]
pub fn bytes_left(out: &[u8], output: &[u8]) -> bool
    ensures { Tells (LeftBytes out.now output.now) result }
{
    out.starts_with(output) && all_are(&out[output.len()..], BYTE)
}

// Are the first `words` of the work area 0, and the others what they were before the call?
#[tactic(auto, using(crate::proofs::Comparing::each_before, crate::proofs::Comparing::each_behind))]
pub fn words_left(work: &[u32], words: usize) -> bool
    ensures { Tells (LeftWords work.now words) result }
{
    words <= work.len() && all_are(&work[..words], 0) && all_are(&work[words..], WORD)
}
