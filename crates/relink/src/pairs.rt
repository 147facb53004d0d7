// Links for the adjacent pairs of the new paths that have none (document 01, "Folding", rule 6).
ghost use Rattle.std.specs.Prelude.{◌≡◌, ◌+◌, ◌-◌, ◌≤◌, ◌<◌};
ghost use Rattle.relink.specs.Relinking.{with_link};
ghost use Rattle.relink.specs.Adders.{AddsPair, AddsPath, AddsPaths};

use crate::adder::Adder;
use crate::lookup::Sought;
use crate::tallies::Tally;
use tables::entry::PathNo;
use tables::path_steps::Steps;

// With one link more; `same`: it has equal ends.
pub fn with_link(s: Tally, same: bool) -> Tally
    requires { s.added < 4611686018427387904 }
    ensures { result ≡ with_link s same }
{
    if same {
        return Tally {
            added: s.added + 1,
            loops: s.loops + 1,
        };
    }
    Tally {
        added: s.added + 1,
        loops: s.loops,
    }
}

// Adds the link of new step `step` and the step behind it, where there is none.
#[tactic(auto, using(crate::proofs::Adders::passed_there))]
pub fn add_pair(adder: &mut Adder, step: usize)
    requires { (step + 1 < adder.old.a.m.steps) × (adder.old.tally.added < adder.old.a.n.steps) }
    ensures { AddsPair adder.old step adder.new }
{
    let s = adder.tally;
    let end = adder.a.g.added + s.added;
    let graph = adder.graph();
    let sought = Sought::at(&graph, step);
    if sought.find_link(s.added) {
        return;
    }
    let p = sought.pair;
    adder.work[end] = step as u32;
    adder.tally = with_link(s, p.first.node == p.second.node);
}

// Adds the links of a new path, which has these steps.
pub fn add_path(adder: &mut Adder, steps: Steps)
    requires { (steps.end ≤ adder.old.a.m.steps) × (adder.old.tally.added + (steps.end - steps.first) ≤ adder.old.a.n.steps) }
    ensures { AddsPath adder.old steps.first steps.end adder.new }
{
    for k in steps.first + 1..steps.end {
        add_pair(adder, k - 1);
    }
}

// Adds the links of all new paths, from none on.
pub fn add_paths(adder: &mut Adder)
    ensures { AddsPaths adder.old adder.new }
{
    adder.tally = Tally { added: 0, loops: 0 };
    for p in 0..adder.a.n.paths {
        let steps = adder.graph().new_path(PathNo(p as u32));
        add_path(adder, steps);
    }
}
