// Rows of the normalizer's tables by their numbers: the words of a row come back by name, in a struct. What stands above this crate knows
// neither where a row is nor how wide it is, but for two tables of one word a row: the marks of segments, 1 where a segment is marked, and the added
// links.
ghost use Rattle.std.specs.Prelude.{◌≡◌, ◌+◌, ◌≤◌, ◌<◌, eqb, length, get_or};
ghost use Rattle.work.specs.Rows.{word_of};
ghost use Rattle.normalize_tables.specs.News.{first_of};
ghost use Rattle.normalize_tables.specs.NewByNumber.{NewSegmentThere, NewSegmentIs, NewStepThere, NewStepIs, NewPathThere, NewPathIs, ends_no, joins, SegmentRoom, StepRoom, PathRoom, EndsRoom, NewSegmentPut, NewStepPut, NewPathPut, EndsPut, unit_slots};

use crate::layout::{Area, Layout};
use scan::orientation::Orientation;
use slots::slots::Slots;
use tables::entry::{LinkNo, PathNo, SegmentNo};
use tables::graph::orientation_at;
use tables::path_steps::Steps;
use tables::tables::Counts;
use work::work::{number_at, put_row, word, word_of};

// A run on a segment: the segment, and how many equal steps the run has.
#[derive(Clone, Copy)]
pub struct UnitRun {
    pub unit: SegmentNo,
    pub count: usize,
}

// A new segment's row: its unit, the run length, and the suffix of its name.
#[derive(Clone, Copy)]
pub struct NewSegmentWords {
    pub unit: SegmentNo,
    pub count: usize,
    pub suffix: usize,
}

// A new step's row: the number of its node, and its orientation.
#[derive(Clone, Copy, PartialEq, Eq)]
pub struct NewStepWords {
    pub node: usize,
    pub mark: Orientation,
}

// The row of a link's ends: the nodes that have their names, and whether it is removed.
#[derive(Clone, Copy)]
pub struct Ends {
    pub from: Option<usize>,
    pub to: Option<usize>,
    pub gone: bool,
}

// Is the mark at the word `at` set?
pub fn is_marked(work: &[u32], at: usize) -> bool
    requires { at < length work.now }
    ensures { result ≡ eqb (get_or work.now at 0) 1 }
{
    work[at] == 1
}

// The slots of new segments, one for each segment of the text, their unit: a new segment's own word is the last of its row.
pub fn unit_slots(n: Counts, g: Layout) -> Slots
    requires { g.segs + 3 < 4611686018427387904 }
    ensures { result ≡ unit_slots n g }
{
    Slots {
        heads: g.last,
        count: n.segs,
        nexts: g.segs + 3,
        stride: 4,
    }
}

// New segment `j`.
#[tactic(auto, unfolding(crate::specs::News::new_at))]
pub fn new_segment_at(text: &[u8], work: &[u32], a: Area, j: usize) -> NewSegmentWords
    requires { NewSegmentThere work.now a.n a.g a.m.segs j }
    ensures { NewSegmentIs text.now work.now a.b a.n a.g (first_of a.m.first) j result }
{
    let at = a.g.segs + 4 * j;
    let unit = work[at];
    NewSegmentWords {
        unit: SegmentNo(unit),
        count: word(work, at + 1),
        suffix: word(work, at + 2),
    }
}

// New step `k`.
#[tactic(auto, unfolding(crate::specs::News::new_step_at))]
pub fn new_step_at(work: &[u32], a: Area, k: usize) -> NewStepWords
    requires { NewStepThere work.now a.n a.g a.m k }
    ensures { NewStepIs work.now a.n a.g a.m k result }
{
    let at = a.g.steps + 2 * k;
    NewStepWords {
        node: word(work, at),
        mark: orientation_at(work, at + 1),
    }
}

// The new steps of new path `p`.
#[tactic(auto, unfolding(crate::specs::News::new_path_at))]
pub fn new_path_at(work: &[u32], a: Area, p: PathNo) -> Steps
    requires { NewPathThere work.now a.n a.g a.m p.0 }
    ensures { NewPathIs work.now a.n a.g a.m p.0 result }
{
    let at = a.g.paths + 2 * p.0 as usize;
    let first = word(work, at);
    let count = word(work, at + 1);
    Steps {
        first,
        end: first + count,
    }
}

// The ends of link `i`.
pub fn ends_at(work: &[u32], a: Area, i: LinkNo) -> Ends
    requires { EndsRoom work.now a.g a.n.links × (i.0 < a.n.links) }
    ensures { result ≡ ends_no work.now a.g i.0 }
{
    let at = a.g.ends + 3 * i.0 as usize;
    Ends {
        from: number_at(work, at),
        to: number_at(work, at + 1),
        gone: work[at + 2] == 1,
    }
}

// Are these the nodes at the ends of link `i`? Compared as words: an Option made of each would double the cost of a search over the links.
#[tactic(auto, using(crate::proofs::Words::joined_told))]
pub fn joins_at(work: &[u32], a: Area, i: LinkNo, from: usize, to: usize) -> bool
    requires { EndsRoom work.now a.g a.n.links × (i.0 < a.n.links) × (from < 4294967296) × (to < 4294967296) }
    ensures { result ≡ joins work.now a.g i.0 from to }
{
    let at = a.g.ends + 3 * i.0 as usize;
    work[at] as usize == from + 1 && work[at + 1] as usize == to + 1
}

// Puts the row of new segment `j`.
pub fn put_new_segment(work: &mut [u32], g: Layout, j: usize, r: NewSegmentWords)
    requires { SegmentRoom work.old g (j + 1) × (r.count < 4294967296) × (r.suffix < 4294967296) }
    ensures { NewSegmentPut work.old work.new g j r }
{
    let unit = r.unit.0 as usize;
    put_row(work, g.segs + 4 * j, &[unit, r.count, r.suffix]);
}

// Puts the row of new step `k`.
pub fn put_new_step(work: &mut [u32], g: Layout, k: usize, r: NewStepWords)
    requires { StepRoom work.old g (k + 1) × (r.node < 4294967296) }
    ensures { NewStepPut work.old work.new g k r }
{
    put_row(work, g.steps + 2 * k, &[r.node, r.mark.sign() as usize]);
}

// Puts the row of new path `p`: its new steps.
pub fn put_new_path(work: &mut [u32], g: Layout, p: PathNo, r: Steps)
    requires { PathRoom work.old g (p.0 + 1) × (r.end < 4294967296) }
    ensures { NewPathPut work.old work.new g p.0 r }
{
    put_row(
        work,
        g.paths + 2 * p.0 as usize,
        &[r.first, r.end - r.first],
    );
}

// Puts the row of link `i`.
pub fn put_ends(work: &mut [u32], g: Layout, i: LinkNo, r: Ends)
    requires { EndsRoom work.old g (i.0 + 1) × (word_of r.from < 4294967296) × (word_of r.to < 4294967296) }
    ensures { EndsPut work.old work.new g i.0 r }
{
    let from = word_of(r.from);
    let to = word_of(r.to);
    put_row(
        work,
        g.ends + 3 * i.0 as usize,
        &[from, to, usize::from(r.gone)],
    );
}
