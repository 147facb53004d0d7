// What adds links.
ghost use Rattle.std.proofs.Props.{props};
ghost use Rattle.tables.specs.Props.{Fits-prop};
ghost use Rattle.link_ends.specs.LinkEnds.{Relinkable};
ghost use Rattle.relink.specs.Relinking.{AddedRows};

use crate::tallies::Tally;
use normalize_tables::layout::Area;
use normalize_tables::new_graph::NewGraph;

// What adds links: the tables of a text and the normalizer's behind them, where the new segments, steps and paths are made, and how many links
// are added so far. It holds no `Relinker`: lent to a struct within a struct, the work area is not found to come back.
#[derive(Drop)]
pub struct Adder<'a> {
    pub text: &'a [u8],
    pub work: &'a mut [u32],
    pub a: Area,
    pub tally: Tally,
    ghost relinkable: { Relinkable text.now work.now a.b a.n a.g a.m } by { Prim.hlevel (props, Fits-prop) },
    ghost rows: { AddedRows work.now a.n a.g a.m tally.added } by { Prim.hlevel props },
}

impl<'a> Adder<'a> {
    ghost use Rattle.relink.specs.Adders.{AdderGraph};

    // The graph to which links are added, as `Relinker::graph`: each lends the work area that it holds.
    pub fn graph(&self) -> NewGraph<'_>
        ensures { AdderGraph self.now result }
    {
        NewGraph {
            text: self.text,
            work: self.work,
            a: self.a,
        }
    }
}
