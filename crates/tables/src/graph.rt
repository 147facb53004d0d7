// A graph that was read: its text, and where its tables are in the work area. The words of a row come back by name.
ghost use Rattle.std.specs.Prelude.{◌+◌, ◌<◌, length, true, ◌≡◌, get_or};
ghost use Rattle.std.proofs.Props.{props};
ghost use Rattle.gfa_spec.specs.Reading.{is_orientation};
ghost use Rattle.scan.specs.Orientations.{sign_of};
ghost use Rattle.scan.specs.Places.{Inside};
ghost use Rattle.tables.specs.Props.{Fits-prop};
ghost use Rattle.tables.specs.Tables.{Laid, Readable};
ghost use Rattle.tables.specs.Names.{InSlot};
ghost use Rattle.tables.specs.ByNumber.{tables_end, place_at, LineIs, SegmentIs, LinkIs, PathIs, StepIs, NamedIs};

use crate::entry::{LineEntry, LinkNo, PathNo, SegmentNo, record_at};
use crate::kinds::PathKind;
use crate::path_steps::Steps;
use crate::rows::{LinkWords, PathWords, SegmentWords, StepWords};
use crate::segments::{find_segment, in_slot, place_at};
use crate::tables::{Bases, Counts, LINE, LINK, PATH, SEGMENT, STEP};
use scan::orientation::Orientation;
use scan::places::Place;
use slots::walks::SlotRows;
use work::work::word;

#[derive(Clone, Copy)]
pub struct Graph<'a> {
    pub text: &'a [u8],
    pub work: &'a [u32],
    pub b: Bases,
    pub n: Counts,
    ghost readable: { Readable text.now work.now b n } by { Prim.hlevel (props, Fits-prop) },
}

impl<'a> Graph<'a> {
    // The word behind the last row of the last table.
    pub fn end(&self) -> usize
        ensures { result ≡ tables_end self.now.b self.now.n }
    {
        tables_end(self.work, self.b, self.n)
    }

    // Line `i`.
    #[tactic(auto, using(crate::proofs::ByNumber::line_is))]
    pub fn line(&self, i: usize) -> LineEntry
        requires { i < self.now.n.lines }
        ensures { LineIs self.now.text.now self.now.work.now self.now.b self.now.n i result.holds }
    {
        LineEntry {
            holds: record_at(self.work, self.b.lines + LINE * i),
        }
    }

    // Segment `i`.
    #[tactic(auto, using(crate::proofs::ByNumber::segment_is))]
    pub fn segment(&self, i: SegmentNo) -> SegmentWords
        requires { i.0 < self.now.n.segs }
        ensures { SegmentIs self.now.text.now self.now.work.now self.now.b i.0 result }
    {
        let at = self.b.segs + SEGMENT * i.0 as usize;
        SegmentWords {
            line: place_at(self.work, at),
            id: place_at(self.work, at + 2),
            sequence: place_at(self.work, at + 4),
        }
    }

    // Link `i`.
    pub fn link(&self, i: LinkNo) -> LinkWords
        requires { i.0 < self.now.n.links }
        ensures { LinkIs self.now.text.now self.now.work.now self.now.b i.0 result }
    {
        let at = self.b.links + LINK * i.0 as usize;
        LinkWords {
            line: place_at(self.work, at),
            from: place_at(self.work, at + 2),
            leaves: orientation_at(self.work, at + 4),
            to: place_at(self.work, at + 5),
            enters: orientation_at(self.work, at + 7),
        }
    }

    // Path `p`.
    pub fn path(&self, p: PathNo) -> PathWords
        requires { p.0 < self.now.n.paths }
        ensures { PathIs self.now.text.now self.now.work.now self.now.b self.now.n p.0 result }
    {
        let at = self.b.paths + PATH * p.0 as usize;
        let first = word(self.work, at + 3);
        let count = word(self.work, at + 4);
        PathWords {
            kind: PathKind::of(word(self.work, at)),
            line: place_at(self.work, at + 1),
            steps: Steps {
                first,
                end: first + count,
            },
        }
    }

    // Step `i` of the step table.
    pub fn step(&self, i: usize) -> StepWords
        requires { i < self.now.n.steps }
        ensures { StepIs self.now.text.now self.now.work.now self.now.b i result }
    {
        let at = self.b.steps + STEP * i;
        StepWords {
            name: place_at(self.work, at),
            mark: orientation_at(self.work, at + 2),
        }
    }

    // The segments in the slot of a sum, from the last one back: those whose IDs have the sum are among them.
    pub fn in_slot(&self, sum: u32) -> SlotRows<'a>
        ensures { InSlot self.now.work.now self.now.b sum result }
    {
        in_slot(self.work, self.b, sum)
    }

    // The first segment that has the name.
    pub fn named(&self, name: Place) -> Option<SegmentNo>
        requires { Inside self.now.text.now name }
        ensures { NamedIs self.now.text.now self.now.work.now self.now.b self.now.n name result }
    {
        find_segment(self.text, self.work, self.b, self.n.segs, name)
    }
}

// The word behind the last row of the last table.
pub fn tables_end(work: &[u32], b: Bases, n: Counts) -> usize
    requires { Laid b n (length work.now) }
    ensures { result ≡ tables_end b n }
{
    b.steps + STEP * n.steps
}

// The orientation whose sign is the word at `at`.
#[tactic(auto, using(scan::proofs::Orientations::reverse_sign))]
pub fn orientation_at(work: &[u32], at: usize) -> Orientation
    requires { (at < length work.now) × (is_orientation (get_or work.now at 0) ≡ true) }
    ensures { sign_of result ≡ get_or work.now at 0 }
{
    if work[at] == 43 {
        Orientation::Forward
    } else {
        Orientation::Reverse
    }
}
