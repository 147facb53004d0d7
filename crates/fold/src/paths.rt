// What the paths become, run by run (document 01, "Folding", rule 4).
ghost use Rattle.std.specs.Prelude.{◌≡◌, ◌-◌, ◌≤◌, ◌<◌};
ghost use Rattle.fold.specs.Turns.{KnownSteps, Room, with_path};
ghost use Rattle.fold.specs.Foldings.{TurnsSteps, TransformsPath};
ghost use Rattle.fold.specs.Transforms.{AllKnown, PathReady, Transforms};

use crate::folding::Folding;
use crate::turns::turn_run;
use new_ids::ids::first_number;
use normalize_tables::layout::{Area, Made};
use normalize_tables::normalizer::Normalizer;
use normalize_tables::rows::{put_new_path, unit_slots};
use runs::runs::run_from;
use tables::entry::PathNo;
use tables::graph::Graph;
use tables::path_steps::Steps;

// Turns the runs of a path's steps.
pub fn transform_path_steps(paths: &mut Folding, steps: Steps)
    requires room { Room paths.old.a.n paths.old.a.m (steps.end - steps.first) }
    requires known { (steps.end ≤ paths.old.a.n.steps) × KnownSteps paths.old.text.now paths.old.work.now paths.old.a.b paths.old.a.n steps.first steps.end }
    ensures { TurnsSteps paths.old steps.first steps.end paths.new }
{
    let mut i = steps.first;
    // No `for` over `Runs`: each turn writes the work area, which the runs' graph would hold lent across the loop.
    while i < steps.end {
        let next = run_from(&paths.graph(), i, steps.end);
        turn_run(paths, i, next - i);
        i = next;
    }
}

// What was made with one path more, which is changed where runs of it were folded: before it there was `m`.
#[tactic(auto, using(gfa_spec::proofs::Counting::bit_byte))]
fn with_path(m: Made, t: Made) -> Made
    requires { m.changed < 4294967296 }
    ensures { result ≡ with_path m t }
{
    Made {
        first: t.first,
        segs: t.segs,
        steps: t.steps,
        runs: t.runs,
        changed: m.changed + usize::from(m.runs < t.runs),
    }
}

// Transforms path `p`: its new steps are put behind the others, and its row.
pub fn transform_path(paths: &mut Folding, p: PathNo)
    requires { PathReady paths.old.text.now paths.old.work.now paths.old.a.b paths.old.a.n paths.old.a.m p.0 }
    ensures { TransformsPath paths.old p.0 paths.new }
{
    let Area { g, m, .. } = paths.a;
    let graph = paths.graph();
    let path = graph.path(p);
    transform_path_steps(paths, path.steps);
    let t = paths.a.m;
    put_new_path(
        paths.work,
        g,
        p,
        Steps {
            first: m.steps,
            end: t.steps,
        },
    );
    paths.a.m = with_path(m, t);
}

// Transforms all paths: new segments, new steps and new paths are put into their tables.
pub fn transform(tables: &mut Normalizer) -> Made
    requires { AllKnown tables.old.text.now tables.old.work.now tables.old.b tables.old.n }
    ensures { Transforms tables.old result tables.new }
{
    let Normalizer { text, b, n, g, .. } = *tables;
    let work = &mut *tables.work;
    let slots = unit_slots(n, g);
    slots.clear(work);
    let graph = Graph { text, work, b, n };
    let first = first_number(&graph);
    let mut m = Made {
        first,
        segs: 0,
        steps: 0,
        runs: 0,
        changed: 0,
    };
    // A folding for each path: with one across the loop it was not proved that the work area comes back as the last path left it.
    for p in 0..n.paths {
        let a = Area { b, n, g, m };
        let mut paths = Folding { text, work, a };
        transform_path(&mut paths, PathNo(p as u32));
        m = paths.a.m;
    }
    m
}
