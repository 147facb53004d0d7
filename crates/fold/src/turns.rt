// What a run of a path becomes (document 01, "Folding", rule 4).
ghost use Rattle.std.specs.Prelude.{◌+◌, ◌≤◌, ◌<◌, length};
ghost use Rattle.scan.specs.Orientations.{sign_of};
ghost use Rattle.scan.specs.Places.{Inside, bytes_in};
ghost use Rattle.tables.specs.ByNumber.{segments_of};
ghost use Rattle.normalize_tables.specs.NewByNumber.{StepRoom};
ghost use Rattle.fold.specs.Turns.{EqualStepsPut, KnownIn, KnownStep, UnitIs, Room, FoldedIs};
ghost use Rattle.fold.specs.Foldings.{FindsTarget, FoldsRun, KeepsRun, TurnsRun};

use crate::folding::Folding;
use new_segs::chains::made_for;
use new_segs::segs::make_segment;
use normalize_tables::layout::{Area, Layout};
use normalize_tables::rows::{NewStepWords, UnitRun, is_marked, put_new_step};
use scan::orientation::Orientation;
use scan::places::Place;
use tables::entry::SegmentNo;
use tables::graph::Graph;

// Puts rows of `count` equal new steps from new step `k` on.
pub fn put_steps(work: &mut [u32], g: Layout, k: usize, r: NewStepWords, count: usize)
    requires { StepRoom work.old g (k + count) × (r.node < 4294967296) }
    ensures { EqualStepsPut work.old work.new g k r count }
{
    for i in 0..count {
        put_new_step(work, g, k + i, r);
    }
}

// The segment that has the name, of which it is known that there is one.
#[tactic(auto, using(crate::proofs::Turning::units))]
pub fn unit_of(graph: &Graph, name: Place) -> SegmentNo
    requires { Inside graph.now.text.now name × KnownIn (segments_of graph.now.text.now graph.now.work.now graph.now.b graph.now.n) (bytes_in graph.now.text.now name) }
    ensures { UnitIs graph.now.text.now graph.now.work.now graph.now.b graph.now.n name result.0 }
{
    graph.named(name).unwrap()
}

// Is the run to be folded?
pub fn is_folded(work: &[u32], g: Layout, run: UnitRun) -> bool
    requires { g.folded + run.unit.0 < length work.now }
    ensures { FoldedIs work.now g run.unit.0 run.count result }
{
    2 <= run.count && is_marked(work, g.folded + run.unit.0 as usize)
}

// The node of the new segment of the run's unit and length, which is made where there is none.
#[tactic(auto, using(crate::proofs::Foldings::finding))]
pub fn target_for(paths: &mut Folding, run: UnitRun) -> usize
    requires { Room paths.old.a.n paths.old.a.m run.count × (run.unit.0 < paths.old.a.n.segs) × (2 ≤ run.count) }
    ensures { FindsTarget paths.old run.unit.0 run.count result paths.new }
{
    let a = paths.a;
    let news = paths.news();
    if let Some(j) = made_for(&news, run) {
        return a.n.segs + j;
    }
    make_segment(paths.text, paths.work, a, run);
    paths.a.m.segs = a.m.segs + 1;
    a.n.segs + a.m.segs
}

// Folds a run into one step on the new segment of its unit and length.
pub fn fold_run(paths: &mut Folding, run: UnitRun, mark: Orientation)
    requires room { Room paths.old.a.n paths.old.a.m run.count }
    requires unit_lt_segs { (run.unit.0 < paths.old.a.n.segs) × (2 ≤ run.count) }
    ensures { FoldsRun paths.old run.unit.0 run.count (sign_of mark) paths.new }
{
    let Area { g, m, .. } = paths.a;
    let node = target_for(paths, run);
    put_steps(paths.work, g, m.steps, NewStepWords { node, mark }, 1);
    paths.a.m.steps = m.steps + 1;
    paths.a.m.runs = m.runs + 1;
}

// Keeps the steps of a run.
pub fn keep_run(paths: &mut Folding, run: UnitRun, mark: Orientation)
    requires room { Room paths.old.a.n paths.old.a.m run.count }
    requires unit_lt_segs { run.unit.0 < paths.old.a.n.segs }
    ensures { KeepsRun paths.old run.unit.0 run.count (sign_of mark) paths.new }
{
    let Area { g, m, .. } = paths.a;
    let UnitRun { unit, count } = run;
    let node = unit.0 as usize;
    put_steps(paths.work, g, m.steps, NewStepWords { node, mark }, count);
    paths.a.m.steps = m.steps + count;
}

// Turns the run of `count` steps from step `i` on.
#[tactic(auto, using(crate::proofs::Foldings::turning))]
pub fn turn_run(paths: &mut Folding, i: usize, count: usize)
    requires room { Room paths.old.a.n paths.old.a.m count }
    requires i_lt_steps { (i < paths.old.a.n.steps) × KnownStep paths.old.text.now paths.old.work.now paths.old.a.b paths.old.a.n i }
    ensures { TurnsRun paths.old i count paths.new }
{
    let g = paths.a.g;
    let graph = paths.graph();
    let s = graph.step(i);
    let unit = unit_of(&graph, s.name);
    let run = UnitRun { unit, count };
    if is_folded(graph.work, g, run) {
        fold_run(paths, run, s.mark);
    } else {
        keep_run(paths, run, s.mark);
    }
}
