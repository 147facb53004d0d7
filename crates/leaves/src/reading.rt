// The leaves that read numbers, sequences and names. Those of two parts have them behind each other in the text; the case's argument is
// the length of the first.
ghost use Rattle.std.specs.Prelude.{◌≤◌, length};

use crate::placing::placing;
use cases::headers::ARG;
use scan::names::{is_star, last_difference, same_bytes, same_name};
use scan::numbers::number_of;
use scan::places::Place;
use scan::sequences::sequence_len;
use slots::sums::name_sum;

// An answer of yes or no.
fn truth(yes: bool) -> [usize; 4] {
    [usize::from(yes), 0, 0, 0]
}

// The number that a text reads as.
fn number(text: &[u8]) -> [usize; 4] {
    match number_of(text) {
        Some(n) => [1, n as usize, 0, 0],
        None => [0; 4],
    }
}

// Is the front of a text, up to a place, the same name as what stands behind it?
fn names(text: &[u8], at: usize) -> bool
    requires { at ≤ length text.now }
{
    let front = Place { start: 0, size: at };
    let rest = Place {
        start: at,
        size: text.len() - at,
    };
    same_name(text, front, rest)
}

// Are two strings the same? And, where they are of one length, is there a last place where they differ, and which?
fn difference(s: &[u8], t: &[u8]) -> [usize; 4] {
    let same = same_bytes(s, t);
    if s.len() != t.len() {
        return truth(same);
    }
    match last_difference(s, t) {
        Some(i) => [0, 1, i, 0],
        None => truth(same),
    }
}

// What a reader of this name answers, or another leaf.
pub fn reading(name: &[u8], row: &[usize; 24], text: &[u8]) -> [usize; 4] {
    let at = row[ARG].min(text.len());
    let (s, t) = text.split_at(at);
    match name {
        b"number_of" => number(text),
        b"sequence_len" => [sequence_len(text), 0, 0, 0],
        b"is_star" => truth(is_star(text)),
        b"same_constant" => truth(same_bytes(s, t)),
        b"same_name" => truth(names(text, at)),
        b"last_difference" => difference(s, t),
        b"name_sum" => [name_sum(text) as usize, 0, 0, 0],
        _ => placing(name, row, text),
    }
}
