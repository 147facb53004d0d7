// The rows of the tables by their numbers, put: a row's words by name, in a struct. What stands above this crate knows neither where a row is
// nor how wide it is.
ghost use Rattle.std.specs.Prelude.{◌+◌, ◌*◌, ◌≤◌, ◌<◌, length, [], ◌∷◌, ◌≡◌};
ghost use Rattle.std.proofs.lemmas.List.Edits.{sets};
ghost use Rattle.work.specs.Rows.{Small};
ghost use Rattle.tables.specs.Entries.{words_of};
ghost use Rattle.tables.specs.ByNumber.{segment_words, link_words, path_words, step_words};

use crate::entry::{LineEntry, LinkNo, PathNo, SegmentNo, words_of};
use crate::kinds::PathKind;
use crate::path_steps::Steps;
use crate::tables::{Bases, LINE, LINK, PATH, SEGMENT, STEP};
use scan::orientation::Orientation;
use scan::places::Place;
use work::work::put_row;

// A segment's row.
#[derive(Clone, Copy)]
pub struct SegmentWords {
    pub line: Place,
    pub id: Place,
    pub sequence: Place,
}

// A link's row.
#[derive(Clone, Copy)]
pub struct LinkWords {
    pub line: Place,
    pub from: Place,
    pub leaves: Orientation,
    pub to: Place,
    pub enters: Orientation,
}

// A path's row: its kind, its line, and its steps.
#[derive(Clone, Copy)]
pub struct PathWords {
    pub kind: PathKind,
    pub line: Place,
    pub steps: Steps,
}

// A step's row.
#[derive(Clone, Copy)]
pub struct StepWords {
    pub name: Place,
    pub mark: Orientation,
}

// The word at which step `i` stands.
pub fn step_place(b: Bases, i: usize) -> usize
    requires { b.steps + 3 * i < 4611686018427387904 }
    ensures { result ≡ b.steps + 3 * i }
{
    b.steps + STEP * i
}

// Puts line `i`.
pub fn put_line(work: &mut [u32], b: Bases, i: usize, entry: LineEntry)
    requires { b.lines + 3 * i + 3 ≤ length work.old }
    ensures { work.new ≡ sets work.old (b.lines + 3 * i) (words_of entry.holds) }
{
    put_row(work, b.lines + LINE * i, &words_of(entry.holds));
}

// Puts segment `i`.
pub fn put_segment(work: &mut [u32], b: Bases, i: SegmentNo, s: SegmentWords)
    requires { (b.segs + 7 * i.0 + 6 ≤ length work.old) × Small (segment_words s) }
    ensures { work.new ≡ sets work.old (b.segs + 7 * i.0) (segment_words s) }
{
    let at = b.segs + SEGMENT * i.0 as usize;
    put_row(
        work,
        at,
        &[
            s.line.start,
            s.line.size,
            s.id.start,
            s.id.size,
            s.sequence.start,
            s.sequence.size,
        ],
    );
}

// Puts link `i`.
pub fn put_link(work: &mut [u32], b: Bases, i: LinkNo, l: LinkWords)
    requires { (b.links + 8 * i.0 + 8 ≤ length work.old) × Small (link_words l) }
    ensures { work.new ≡ sets work.old (b.links + 8 * i.0) (link_words l) }
{
    let at = b.links + LINK * i.0 as usize;
    put_row(
        work,
        at,
        &[
            l.line.start,
            l.line.size,
            l.from.start,
            l.from.size,
            l.leaves.sign() as usize,
            l.to.start,
            l.to.size,
            l.enters.sign() as usize,
        ],
    );
}

// Puts path `p`.
pub fn put_path(work: &mut [u32], b: Bases, p: PathNo, w: PathWords)
    requires { (b.paths + 5 * p.0 + 5 ≤ length work.old) × Small (w.line.start ∷ w.line.size ∷ w.steps.end ∷ []) }
    ensures { work.new ≡ sets work.old (b.paths + 5 * p.0) (path_words w) }
{
    let at = b.paths + PATH * p.0 as usize;
    put_row(
        work,
        at,
        &[
            w.kind.word(),
            w.line.start,
            w.line.size,
            w.steps.first,
            w.steps.end - w.steps.first,
        ],
    );
}

// Puts step `i` of the steps that stand from the word `base` on.
pub fn put_step(work: &mut [u32], base: usize, i: usize, s: StepWords)
    requires { (base + 3 * i + 3 ≤ length work.old) × Small (step_words s) }
    ensures { work.new ≡ sets work.old (base + 3 * i) (step_words s) }
{
    put_row(
        work,
        base + STEP * i,
        &[s.name.start, s.name.size, s.mark.sign() as usize],
    );
}
