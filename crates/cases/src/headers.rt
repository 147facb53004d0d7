// The numbers of a case: its header's words, read and compared.
ghost use Rattle.std.specs.Prelude.{◌≡◌, ◌+◌, ◌≤◌, min, length};
ghost use Rattle.scan.specs.Places.{Inside};
ghost use Rattle.cases.specs.Cases.{Tells, Skipped, SameNumbers};

use scan::numbers::number_of;
use scan::places::Place;
use scan::split::Split;

// The words of a header, of which 24 are read, by their number, counted from 0: the call's argument, the length of its output buffer, the first of the four numbers that
// it answers, the lengths of text and output, and the first of those that only some calls have.
pub const ARG: usize = 1;

pub const ROOM: usize = 2;

pub const ANSWER: usize = 4;

pub const TEXT: usize = 8;

pub const OUTPUT: usize = 9;

pub const MORE: usize = 10;

// What stands for a word that is missing or no number: it is larger than any buffer. No Option, since the lists have this number for none.
pub const NONE: usize = usize::MAX;

// The place `n` behind `at`, or the end where that comes first. It adds, and `product` of crate sequences multiplies: one for both would take what
// to do with the two numbers.
pub fn forward(at: usize, n: usize, end: usize) -> usize
    requires { at ≤ end }
    ensures place { result ≡ min (at + n) end }
    ensures skipped { Skipped end at result }
{
    at.saturating_add(n).min(end)
}

// The numbers of a header, its words being parted by blanks.
pub fn read_header(list: &[u8], header: Place) -> [usize; 24]
    requires { Inside list.now header }
{
    let mut row = [NONE; 24];
    for (word, part) in row.iter_mut().zip(Split::of(list, b' ', header)) {
        *word = number_of(part.of(list)).map_or(NONE, |n| n as usize);
    }
    row
}

// Are the numbers of the row from word `from` on these?
#[tactic(auto, using(crate::proofs::Comparing::numbers_in))]
pub fn same_numbers(row: &[usize; 24], from: usize, numbers: &[usize]) -> bool
    requires { from ≤ 24 }
    ensures { Tells (SameNumbers row.now from numbers.now) result }
{
    row[from..].starts_with(numbers)
}
