// The links are settled: some are removed, the others are kept, and those that the new paths lack are added (document 01, "Folding", rule 6).
ghost use Rattle.relink.specs.Relinking.{SettledIs};
ghost use Rattle.link_ends.specs.LinkEnds.{Relinkable};

use crate::adder::Adder;
use crate::pairs::add_paths;
use crate::tallies::Tally;
use link_ends::ends::put_all_ends;
use link_ends::relinker::Relinker;
use normalize_tables::layout::Area;
use runs::counts::self_links;
use tables::graph::Graph;

// How many links are added and how many are removed, and how many of those that there are now have equal ends.
#[derive(Clone, Copy)]
pub struct Links {
    pub added: usize,
    pub removed: usize,
    pub loops: usize,
}

// Marks the links that are removed, and adds those that are missing.
pub fn settle_links(text: &[u8], work: &mut [u32], a: Area) -> Links
    requires { Relinkable text.now work.old a.b a.n a.g a.m }
    ensures { SettledIs text.now work.old work.new a.b a.n a.g a.m result }
{
    let mut links = Relinker { text, work, a };
    let removed = put_all_ends(&mut links);
    let mut adder = Adder {
        text,
        work,
        a,
        tally: Tally { added: 0, loops: 0 },
    };
    add_paths(&mut adder);
    let tally = adder.tally;
    let graph = Graph {
        text,
        work,
        b: a.b,
        n: a.n,
    };
    let all = self_links(&graph);
    Links {
        added: tally.added,
        removed,
        loops: all - removed + tally.loops,
    }
}
