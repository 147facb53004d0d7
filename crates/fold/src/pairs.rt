// The adjacent pairs of the new paths (document 01, the counters of "Folding").
ghost use Rattle.std.specs.Prelude.{◌≤◌, length};
ghost use Rattle.tables.specs.Tables.{Few};
ghost use Rattle.normalize_tables.specs.Layout.{Placed};
ghost use Rattle.normalize_tables.specs.Rewritten.{NewRows};
ghost use Rattle.fold.specs.Pairings.{NewPairsIs, NewPairTotals};

use normalize_tables::layout::Area;
use normalize_tables::rows::{new_path_at, new_step_at};
use runs::counts::Pairs;
use tables::entry::PathNo;
use tables::path_steps::Steps;

// The adjacent pairs of some new steps.
pub fn count_new_pairs(work: &[u32], a: Area, among: Steps) -> Pairs
    requires new_rows { NewRows work.now a.n a.g a.m × Placed a.b a.n a.g (length work.now) × Few a.n }
    requires end_le_steps { among.end ≤ a.m.steps }
    ensures { NewPairsIs work.now a.n a.g a.m among.first among.end result }
{
    let mut nodes = 0;
    let mut steps = 0;
    for k in among.first + 1..among.end {
        let s = new_step_at(work, a, k - 1);
        let t = new_step_at(work, a, k);
        nodes += usize::from(s.node == t.node);
        steps += usize::from(s == t);
    }
    Pairs { nodes, steps }
}

// The adjacent pairs of all new paths.
pub fn new_pairs(work: &[u32], a: Area) -> Pairs
    requires { NewRows work.now a.n a.g a.m × Placed a.b a.n a.g (length work.now) × Few a.n }
    ensures { NewPairTotals work.now a.n a.g a.m result }
{
    let mut nodes = 0;
    let mut steps = 0;
    for i in 0..a.n.paths {
        let among = new_path_at(work, a, PathNo(i as u32));
        let more = count_new_pairs(work, a, among);
        nodes += more.nodes;
        steps += more.steps;
    }
    Pairs { nodes, steps }
}
