// The folded segments (document 01, "Folding", rule 2): eligible ones with a maximal run of two or more equal steps on a path.
ghost use Rattle.std.specs.Prelude.{◌+◌, ◌≤◌, ◌<◌, length};
ghost use Rattle.targets.specs.Marking.{Markable, OnMarked, AnyIs, BothKept};
ghost use Rattle.targets.specs.Markers.{MarksNext, MarksPath, MarksPaths, MarksFolded};

use crate::marks::Marker;
use normalize_tables::layout::Layout;
use normalize_tables::normalizer::Normalizer;
use normalize_tables::rows::is_marked;
use runs::runs::{Runs, run_from};
use tables::entry::PathNo;
use tables::graph::Graph;
use tables::path_steps::Steps;
use work::work::clear_words;

// Is the run of `times` steps from step `i` on one of two or more, on a marked segment?
#[tactic(auto, using(crate::proofs::Looking::marked_unknown, crate::proofs::Looking::marked_known))]
pub fn on_marked(graph: &Graph, marks: usize, i: usize, times: usize) -> bool
    requires { Markable graph.now.text.now graph.now.work.now graph.now.b graph.now.n marks × (i < graph.now.n.steps) }
    ensures { OnMarked graph.now.text.now graph.now.work.now graph.now.b graph.now.n marks i times result }
{
    if times < 2 {
        return false;
    }
    match graph.named(graph.step(i).name) {
        Some(found) => is_marked(graph.work, marks + found.0 as usize),
        None => false,
    }
}

// Is some segment folded? The search leaves both loops at the first run of two or more on an eligible segment (document 01: a labelled break).
pub fn any_folded(tables: &Normalizer) -> bool
    ensures { AnyIs tables.now.text.now tables.now.work.now tables.now.b tables.now.n tables.now.g result }
{
    let graph = tables.graph();
    let mut found = false;
    'paths: for p in 0..graph.n.paths {
        let path = graph.path(PathNo(p as u32));
        for run in Runs::of(&graph, path.steps) {
            if on_marked(&graph, tables.g.eligible, run.start, run.len()) {
                found = true;
                break 'paths;
            }
        }
    }
    found
}

// Marks the segment of the run from step `i` on, of the steps before step `end`, where that is one of two or more; answers where it ends.
#[tactic(auto, using(crate::proofs::FoldedMarks::passing))]
pub fn mark_next(marks: &mut Marker, i: usize, end: usize) -> usize
    requires { (i < end) × (end ≤ marks.old.n.steps) }
    ensures { MarksNext marks.old i end result marks.new }
{
    let graph = marks.graph();
    let next = run_from(&graph, i, end);
    if next - i < 2 {
        return next;
    }
    let step = graph.step(i);
    marks.mark_name(step.name);
    next
}

// Marks the segments that these steps have a run of two or more on.
pub fn mark_path(marks: &mut Marker, steps: Steps)
    requires { steps.end ≤ marks.old.n.steps }
    ensures { MarksPath marks.old steps.first steps.end marks.new }
{
    let mut i = steps.first;
    // No `for` over `Runs`: each turn writes the work area, which the runs' graph would hold lent across the loop.
    while i < steps.end {
        i = mark_next(marks, i, steps.end);
    }
}

// Marks the segments that some path has a run of two or more on.
pub fn mark_paths(marks: &mut Marker)
    ensures { MarksPaths marks.old marks.new }
{
    for p in 0..marks.n.paths {
        let path = marks.graph().path(PathNo(p as u32));
        mark_path(marks, path.steps);
    }
}

// Keeps the marks of the folded segments that are eligible too; answers how many there are.
pub fn keep_eligible(work: &mut [u32], g: Layout, count: usize) -> usize
    requires { (g.eligible + count ≤ g.folded) × (g.folded + count ≤ length work.old) × (count ≤ 2097152) }
    ensures { BothKept work.old work.new g count result }
{
    let mut total = 0;
    for i in 0..count {
        let stays = is_marked(work, g.eligible + i) && is_marked(work, g.folded + i);
        work[g.folded + i] = u32::from(stays);
        total += usize::from(stays);
    }
    total
}

// Marks the folded segments; answers how many there are.
pub fn mark_folded(tables: &mut Normalizer) -> usize
    ensures { MarksFolded tables.old result tables.new }
{
    let Normalizer { text, b, n, g, .. } = *tables;
    let work = &mut *tables.work;
    clear_words(work, g.folded, n.segs);
    let mut marks = Marker {
        text,
        work,
        b,
        n,
        base: g.folded,
    };
    mark_paths(&mut marks);
    keep_eligible(work, g, n.segs)
}
