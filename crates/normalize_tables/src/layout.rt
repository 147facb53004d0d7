// Where the normalizer's tables are, behind the rows of the steps.
ghost use Rattle.std.specs.Prelude.{length};
ghost use Rattle.tables.specs.Tables.{Laid};
ghost use Rattle.normalize_tables.specs.Layout.{Placed};

use tables::graph::tables_end;
use tables::tables::{Bases, Counts};

// Where each table begins, in words of the work area: a mark for each segment that is eligible, a mark for each that is folded, the last
// new segment on each; the new paths, the new segments, the new steps, the added links, and the ends of the links of the text.
#[derive(Clone, Copy)]
pub struct Layout {
    pub eligible: usize,
    pub folded: usize,
    pub last: usize,
    pub paths: usize,
    pub segs: usize,
    pub steps: usize,
    pub added: usize,
    pub ends: usize,
}

// What the transformation made: the number that the first new segment has, where IDs are numbers; how many new segments and new steps
// there are, how many runs were turned into one step, and how many paths have such a run.
#[derive(Clone, Copy)]
pub struct Made {
    pub first: Option<u64>,
    pub segs: usize,
    pub steps: usize,
    pub runs: usize,
    pub changed: usize,
}

// The tables of a text and the normalizer's behind them, with what the transformation made so far.
#[derive(Clone, Copy)]
pub struct Area {
    pub b: Bases,
    pub n: Counts,
    pub g: Layout,
    pub m: Made,
}

// The tables, one behind the other.
pub fn layout_of(work: &[u32], b: Bases, n: Counts) -> Layout
    requires { Laid b n (length work.now) }
    ensures { Placed b n result (length work.now) }
{
    let eligible = tables_end(work, b, n);
    let folded = eligible + n.segs;
    let last = folded + n.segs;
    let paths = last + n.segs;
    let segs = paths + 2 * n.paths;
    let steps = segs + 2 * n.steps;
    let added = steps + 2 * n.steps;
    let ends = added + n.steps;
    Layout {
        eligible,
        folded,
        last,
        paths,
        segs,
        steps,
        added,
        ends,
    }
}
