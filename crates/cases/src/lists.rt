// The cases of a list, one behind the other.
ghost use Rattle.std.specs.Prelude.{◌≡◌, ◌-◌, ◌≤◌, ◌<◌, ltb, length, get_or};
ghost use Rattle.std.specs.Iterator.{at_most};
ghost use Rattle.gfa_spec.specs.Bytes.{part};
ghost use Rattle.cases.specs.Cases.{CaseIs, Skipped};

use crate::headers::{OUTPUT, TEXT, forward, read_header};
use scan::places::{Place, find};
use scan::split::Split;

// Where the parts of a case stand: its header starts at `start`, its name ends at `blank` and the header at `end`, its text starts at
// `text` and ends at `stop`, its output starts at `output` and ends at `last`, and the header of the next case starts at `next`. A case
// that its list cuts off ends where the list ends.
#[derive(Clone, Copy)]
pub struct Parts {
    pub start: usize,
    pub blank: usize,
    pub end: usize,
    pub text: usize,
    pub stop: usize,
    pub output: usize,
    pub last: usize,
    pub next: usize,
}

// A case of a list, and the numbers of its header.
#[derive(Clone, Copy)]
pub struct Case<'a> {
    pub list: &'a [u8],
    pub parts: Parts,
    pub row: [usize; 24],
    ghost case_is: { CaseIs (length list.now) parts.start parts },
}

impl<'a> Case<'a> {
    // The byte that its header begins with.
    pub fn letter(&self) -> u8
        ensures { result ≡ get_or self.now.list.now self.now.parts.start 0 }
    {
        self.list[self.parts.start]
    }

    // Its name, the first word of its header. This reader and the next three look alike: each is of another part, and no other function reads that.
    #[tactic(auto, unfolding(gfa_spec::specs::Bytes::part))]
    pub fn name(&self) -> &'a [u8]
        ensures { result.now ≡ part self.now.parts.start (self.now.parts.blank - self.now.parts.start) self.now.list.now }
    {
        &self.list[self.parts.start..self.parts.blank]
    }

    // Its header.
    #[tactic(auto, unfolding(gfa_spec::specs::Bytes::part))]
    pub fn header(&self) -> &'a [u8]
        ensures { result.now ≡ part self.now.parts.start (self.now.parts.end - self.now.parts.start) self.now.list.now }
    {
        &self.list[self.parts.start..self.parts.end]
    }

    // The text that its call gets.
    #[tactic(auto, unfolding(gfa_spec::specs::Bytes::part))]
    pub fn text(&self) -> &'a [u8]
        ensures { result.now ≡ part self.now.parts.text (self.now.parts.stop - self.now.parts.text) self.now.list.now }
    {
        &self.list[self.parts.text..self.parts.stop]
    }

    // The output that its call is to leave.
    #[tactic(auto, unfolding(gfa_spec::specs::Bytes::part))]
    pub fn output(&self) -> &'a [u8]
        ensures { result.now ≡ part self.now.parts.output (self.now.parts.last - self.now.parts.output) self.now.list.now }
    {
        &self.list[self.parts.output..self.parts.last]
    }

    // Does its list hold all of it, and not cut it off?
    pub fn is_whole(&self) -> bool
        ensures { result ≡ ltb self.now.parts.last (length self.now.list.now) }
    {
        self.parts.last < self.list.len()
    }
}

// Where the next header starts, from `from` on: empty lines and those that begin with `#` are passed over.
pub fn skip(list: &[u8], from: usize) -> usize
    requires { from ≤ length list.now }
    ensures { Skipped (length list.now) from result }
{
    let rest = Place {
        start: from,
        size: list.len() - from,
    };
    for line in Split::of(list, b'\n', rest) {
        if line.size != 0 && list[line.start] != b'#' {
            return line.start;
        }
    }
    list.len()
}

// The case whose header starts at `start`.
pub fn case_at(list: &[u8], start: usize) -> Case<'_>
    requires { start < length list.now }
    ensures { (result.list.now ≡ list.now) × (result.parts.start ≡ start) }
{
    let size = list.len();
    let end = find(list, b'\n', start, size);
    let blank = find(list, b' ', start, end);
    let header = Place {
        start,
        size: end - start,
    };
    let row = read_header(list, header);
    let text = forward(end, 1, size);
    let stop = forward(text, row[TEXT], size);
    let output = forward(stop, 1, size);
    let last = forward(output, row[OUTPUT], size);
    let next = skip(list, forward(last, 1, size));
    let parts = Parts {
        start,
        blank,
        end,
        text,
        stop,
        output,
        last,
        next,
    };
    Case { list, parts, row }
}

// The cases of a list from the header at `at` on.
#[derive(Drop)]
pub struct Cases<'a> {
    pub list: &'a [u8],
    pub at: usize,
    ghost inside: { at ≤ length list.now },
}

impl<'a> Cases<'a> {
    // All of them.
    pub fn of(list: &'a [u8]) -> Cases<'a>
        ensures { result.list.now ≡ list.now }
    {
        Cases {
            list,
            at: skip(list, 0),
        }
    }
}

impl<'a> Iterator for Cases<'a> {
    ghost use Rattle.cases.specs.Lists.{CaseGiven};

    type Item = Case<'a>;

    ghost next_gives = { CaseGiven };

    ghost remaining = { λ s. at_most (length s.list.now - s.at) };

    fn next(&mut self) -> Option<Case<'a>> {
        if self.at == self.list.len() {
            return None;
        }
        let case = case_at(self.list, self.at);
        self.at = case.parts.next;
        Some(case)
    }
}
