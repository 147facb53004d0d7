// What lines hold, as words of the line table.
ghost use Rattle.std.specs.Prelude.{◌≡◌, ◌+◌, ◌≤◌, length};
ghost use Rattle.work.specs.Rows.{Small};
ghost use Rattle.tables.specs.Entries.{words_of, record_at};

use scan::places::Place;

// Numbers of segments, of links and of paths, each counted from 0: three types, so that none is taken for another. A word of the work area is a
// u32, and a place in memory a usize: `as` makes one of the other, since usize has no `From<u32>`, and the check proves what fits.
#[derive(Clone, Copy)]
pub struct SegmentNo(pub u32);

#[derive(Clone, Copy)]
pub struct LinkNo(pub u32);

#[derive(Clone, Copy, PartialEq, Eq)]
pub struct PathNo(pub u32);

// The place of a line in the text, as the words of its row are: of a `Place` it would have to be shown that it fits them.
#[derive(Clone, Copy)]
pub struct RawLine {
    pub start: u32,
    pub length: u32,
}

impl From<RawLine> for Place {
    ghost from_gives = { λ l r. r ≡ record { start = l.start; size = l.length } };

    fn from(l: RawLine) -> Place {
        Place {
            start: l.start as usize,
            size: l.length as usize,
        }
    }
}

// What a line holds: a numbered record, or a raw line of one of four sorts.
#[derive(Clone, Copy)]
pub enum Record {
    Segment(SegmentNo),
    Link(LinkNo),
    Path(PathNo),
    Header(RawLine),
    Comment(RawLine),
    Blank(RawLine),
    Other(RawLine),
}

// A line's entry.
#[derive(Clone, Copy)]
pub struct LineEntry {
    pub holds: Record,
}

// The words of a record: its sort, and its number, or its start and its length.
pub fn words_of(r: Record) -> [usize; 3]
    ensures words { result ≡ words_of r }
    ensures small { Small result }
{
    match r {
        Record::Segment(n) => [0, n.0 as usize, 0],
        Record::Link(n) => [1, n.0 as usize, 0],
        Record::Path(n) => [2, n.0 as usize, 0],
        Record::Header(l) => [3, l.start as usize, l.length as usize],
        Record::Comment(l) => [4, l.start as usize, l.length as usize],
        Record::Blank(l) => [5, l.start as usize, l.length as usize],
        Record::Other(l) => [6, l.start as usize, l.length as usize],
    }
}

// The record that stands at the word `at`.
#[tactic(auto, unfolding(crate::specs::Entries::record_at, crate::specs::Entries::record_of))]
pub fn record_at(work: &[u32], at: usize) -> Record
    requires { at + 3 ≤ length work.now }
    ensures { result ≡ record_at work.now at }
{
    let a = work[at + 1];
    let raw = RawLine {
        start: a,
        length: work[at + 2],
    };
    match work[at] {
        0 => Record::Segment(SegmentNo(a)),
        1 => Record::Link(LinkNo(a)),
        2 => Record::Path(PathNo(a)),
        3 => Record::Header(raw),
        4 => Record::Comment(raw),
        5 => Record::Blank(raw),
        _ => Record::Other(raw),
    }
}
