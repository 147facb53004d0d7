// The work area: words that are read, rows that are stored.
ghost use Rattle.std.specs.Prelude.{◌≡◌, ◌+◌, ◌≤◌, ◌<◌, length, get_or, replicate};
ghost use Rattle.std.proofs.lemmas.List.Edits.{sets};
ghost use Rattle.work.specs.Rows.{Small, Cleared, word_of, number_in};

// A word of the work area.
pub fn word(work: &[u32], i: usize) -> usize
    requires { i < length work.now }
    ensures { result ≡ get_or work.now i 0 }
{
    work[i] as usize
}

// The number that a word stands for: the word less one, or none for 0. In a row it is the word, since an Option is wider than a word.
#[tactic(auto, using(crate::proofs::Words::number_told))]
pub fn number_in(word: u32) -> Option<u32>
    ensures { result ≡ number_in word }
{
    word.checked_sub(1)
}

// The number that the word at `at` stands for.
pub fn number_at(work: &[u32], at: usize) -> Option<usize>
    requires { at < length work.now }
    ensures { result ≡ number_in (get_or work.now at 0) }
{
    number_in(work[at]).map(|k| k as usize)
}

// The word for a number that may be missing: the number plus one, or 0 for none.
#[tactic(auto, unfolding(crate::specs::Rows::word_of))]
pub fn word_of(number: Option<usize>) -> usize
    requires { word_of number < 4294967296 }
    ensures { result ≡ word_of number }
{
    match number {
        Some(k) => k + 1,
        None => 0,
    }
}

// Makes every word of the work area 0.
pub fn clear(work: &mut [u32])
    ensures { work.new ≡ replicate (length work.old) 0 }
{
    work.fill(0);
}

// Makes the `count` words from the word `at` on 0. No slice of them: the contract says of the other words that they stay.
pub fn clear_words(work: &mut [u32], at: usize, count: usize)
    requires { at + count ≤ length work.old }
    ensures { Cleared work.old work.new at count }
{
    work[at..at + count].fill(0);
}

// Stores a row from the word `at` on.
pub fn put_row(work: &mut [u32], at: usize, row: &[usize])
    requires { (at + length row.now ≤ length work.old) × Small row.now }
    ensures { work.new ≡ sets work.old at row.now }
{
    for (i, v) in row.iter().enumerate() {
        work[at + i] = *v as u32;
    }
}
