// The leaves that say what a line is and where its parts are, and those of the work area.
ghost use Rattle.std.specs.Prelude.{◌+◌, ◌≤◌, length};
ghost use Rattle.scan.specs.Places.{Inside};

use cases::headers::{ARG, MORE, NONE};
use lines::links::parse_orientation;
use lines::sort::{Sort, sort_of};
use refusals::reason::Reason;
use scan::places::{Place, field_at, next_line};
use tables::kinds::PathKind;
use work::work::{clear, put_row, word};

// The largest word of the work area.
const LARGEST: usize = u32::MAX as usize;

// A whole text as a line of its own.
fn whole(text: &[u8]) -> Place
    ensures { Inside text.now result }
{
    Place {
        start: 0,
        size: text.len(),
    }
}

// The line that starts at a place: its start, its length and where the next one starts.
fn line(text: &[u8], at: usize) -> [usize; 4] {
    if text.len() <= at {
        return [0; 4];
    }
    let l = next_line(text, at);
    [l.place.start, l.place.size, l.next, 0]
}

// Field k of a line, by its start and its length.
fn field(text: &[u8], k: usize) -> [usize; 4] {
    match field_at(text, whole(text), k) {
        Some(f) => [1, f.start, f.size, 0],
        None => [0; 4],
    }
}

// The sort of a line: the byte that such a line begins with, ? for another and 0 for an empty one.
fn sort(text: &[u8]) -> u8 {
    match sort_of(text, whole(text)) {
        Sort::Blank => 0,
        Sort::Comment => b'#',
        Sort::Header => b'H',
        Sort::Segment => b'S',
        Sort::Link => b'L',
        Sort::Path(PathKind::P) => b'P',
        Sort::Path(PathKind::W) => b'W',
        Sort::Other => b'?',
    }
}

// An orientation field of an L line: the byte, or its refusal, 8 or 9.
fn orientation(text: &[u8]) -> [usize; 4] {
    match parse_orientation(text, Reason::NoFromSign, Reason::BadFromSign) {
        Ok(o) => [1, o.sign() as usize, 0, 0],
        Err(reason) => [0, reason.number(), 0, 0],
    }
}

// A row of two, each at most 2^32 - 1, is stored behind one word, and those three are read; then all are zeroed, and the first is read
// again.
fn words(a: usize, b: usize) -> [usize; 4] {
    let mut work = [7u32; 4];
    put_row(&mut work, 1, &[a.min(LARGEST), b.min(LARGEST)]);
    let before = word(&work, 0);
    let first = word(&work, 1);
    let second = word(&work, 2);
    clear(&mut work);
    [before, first, second, word(&work, 0)]
}

// What a leaf of this name answers; no leaf answers four times what stands for no number.
pub fn placing(name: &[u8], row: &[usize; 24], text: &[u8]) -> [usize; 4] {
    match name {
        b"next_line" => line(text, row[ARG]),
        b"field_at" => field(text, row[ARG]),
        b"sort_of" => [sort(text) as usize, 0, 0, 0],
        b"parse_orientation" => orientation(text),
        b"put_row" => words(row[MORE], row[11]),
        _ => [NONE; 4],
    }
}
