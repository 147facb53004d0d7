// One pass over the steps, paths in order, adds the counters of the nodes: a run of equal steps at a time.
ghost use Rattle.std.specs.Prelude.{[], ◌-◌, ◌≤◌, ◌<◌};
ghost use Rattle.scan.specs.Places.{Inside};
ghost use Rattle.tables.specs.ByNumber.{tables_end};
ghost use Rattle.nodes.specs.Table.{CountRows};
ghost use Rattle.tally.specs.Tabled.{Tabled};
ghost use Rattle.tally.specs.Visits.{FitRows, Countable, RunCounted, GoesOn};
ghost use Rattle.tally.specs.Countings.{CountsNext, CountsPath, CountsPaths};

use crate::counting::Counting;
use nodes::counters::{counted, counter_at, put_counter};
use nodes::nodes::find_row;
use runs::runs::run_from;
use scan::names::same_name;
use scan::places::Place;
use tables::entry::PathNo;
use tables::graph::Graph;
use tables::path_steps::Steps;

// Counts a run of `times` steps on a name, for the node that has it; `more`: the step behind the run is on the name too. It takes what it needs of a
// `Counting`, and asks nothing of the tables.
pub fn count_run(
    text: &[u8],
    work: &mut [u32],
    table: usize,
    m: usize,
    name: Place,
    times: usize,
    path: PathNo,
    more: bool,
)
    requires { Countable text.now work.old table m × Inside text.now name × (1 ≤ times) × (path.0 < 2097152) × FitRows times path.0 work.old table m }
    ensures { RunCounted text.now work.old work.new table m name times path.0 more }
{
    let Some(k) = find_row(text, work, table, m, name) else {
        return;
    };
    let c = counter_at(work, table, k);
    put_counter(work, table, k, counted(c, times, path, more));
}

// Is step `r`, of those before step `end`, on the node of this name?
#[tactic(auto, using(crate::proofs::Visiting::going_on))]
pub fn goes_on(graph: &Graph, name: Place, r: usize, end: usize) -> bool
    requires { Inside graph.now.text.now name × (r ≤ end) × (end ≤ graph.now.n.steps) }
    ensures { GoesOn graph.now.text.now graph.now.work.now graph.now.b name r end result }
{
    r < end && same_name(graph.text, name, graph.step(r).name)
}

// Counts the run from step `i` on, of the steps before step `end`; answers where it ends.
pub fn count_next(nodes: &mut Counting, i: usize, end: usize, path: PathNo) -> usize
    requires countable { Countable nodes.old.text.now nodes.old.work.now (tables_end nodes.old.b nodes.old.n) nodes.old.m }
    requires fits { (i < end) × (end ≤ nodes.old.n.steps) × (path.0 < 2097152) × FitRows (end - i) path.0 nodes.old.work.now (tables_end nodes.old.b nodes.old.n) nodes.old.m }
    ensures { CountsNext nodes.old i end path.0 result nodes.new }
{
    let m = nodes.m;
    let graph = nodes.graph();
    let table = graph.end();
    let r = run_from(&graph, i, end);
    let name = graph.step(i).name;
    let more = goes_on(&graph, name, r, end);
    count_run(nodes.text, nodes.work, table, m, name, r - i, path, more);
    r
}

// Counts some steps, of path `path`.
pub fn count_path(nodes: &mut Counting, steps: Steps, path: PathNo)
    requires countable { Countable nodes.old.text.now nodes.old.work.now (tables_end nodes.old.b nodes.old.n) nodes.old.m }
    requires fits { (steps.end ≤ nodes.old.n.steps) × (path.0 < 2097152) × FitRows (steps.end - steps.first) path.0 nodes.old.work.now (tables_end nodes.old.b nodes.old.n) nodes.old.m }
    ensures { CountsPath nodes.old steps.first steps.end path.0 nodes.new }
{
    let mut i = steps.first;
    // No `for` over `Runs`: each turn writes the work area, which the runs' graph would hold lent across the loop.
    while i < steps.end {
        i = count_next(nodes, i, steps.end, path);
    }
}

// Counts all paths for the nodes of the table.
pub fn count_paths(nodes: &mut Counting)
    requires tabled { Tabled nodes.old.text.now nodes.old.work.now nodes.old.b nodes.old.n }
    requires fresh { Countable nodes.old.text.now nodes.old.work.now (tables_end nodes.old.b nodes.old.n) nodes.old.m × CountRows nodes.old.text.now [] nodes.old.work.now (tables_end nodes.old.b nodes.old.n) nodes.old.m }
    ensures { CountsPaths nodes.old nodes.new }
{
    for p in 0..nodes.n.paths {
        let no = PathNo(p as u32);
        let path = nodes.graph().path(no);
        count_path(nodes, path.steps, no);
    }
}
