// Places in a text: bytes, lines and fields.
ghost use Rattle.std.specs.Prelude.{◌+◌, ◌≤◌, ◌<◌, length, ◌≡◌};
ghost use Rattle.scan.specs.Places.{Inside, bytes_in, FirstIs, TrimmedIs, NextLineIs, FieldIs};

use crate::split::Split;

// A part of a text. The text is not in it, since rows of tables hold places; that it is inside is asked where it is used.
#[derive(Clone, Copy)]
pub struct Place {
    pub start: usize,
    pub size: usize,
}

impl Place {
    // Its bytes.
    pub fn of(self, text: &[u8]) -> &[u8]
        requires { Inside text.now self }
        ensures { result.now ≡ bytes_in text.now self }
    {
        &text[self.start..self.start + self.size]
    }
}

// A line without its line end, and where the next one starts.
#[derive(Clone, Copy)]
pub struct Line {
    pub place: Place,
    pub next: usize,
}

// The first place of `byte` from `from` up to `to`, or `to`.
pub fn find(text: &[u8], byte: u8, from: usize, to: usize) -> usize
    requires { (from ≤ to) × (to ≤ length text.now) }
    ensures { FirstIs text.now byte from to result }
{
    for i in from..to {
        if text[i] == byte {
            return i;
        }
    }
    to
}

// The length of the line from `start` to `end` without its carriage return.
pub fn trimmed(text: &[u8], start: usize, end: usize) -> usize
    requires { (start ≤ end) × (end ≤ length text.now) }
    ensures { TrimmedIs text.now start end result }
{
    if start == end {
        return 0;
    }
    if text[end - 1] == b'\r' {
        return end - 1 - start;
    }
    end - start
}

// The line that starts at `at`.
pub fn next_line(text: &[u8], at: usize) -> Line
    requires { at < length text.now }
    ensures { NextLineIs text.now at result.place.start result.place.size result.next }
{
    let end = find(text, b'\n', at, text.len());
    let size = trimmed(text, at, end);
    let next = if end < text.len() { end + 1 } else { end };
    Line {
        place: Place { start: at, size },
        next,
    }
}

// Field `k` of a line, counted from 0, where the line has so many.
pub fn field_at(text: &[u8], line: Place, k: usize) -> Option<Place>
    requires { Inside text.now line }
    ensures { FieldIs text.now line k result }
{
    Split::of(text, b'\t', line).nth(k)
}
