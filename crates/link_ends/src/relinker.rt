// What writes the links of the rewritten text.
ghost use Rattle.std.proofs.Props.{props};
ghost use Rattle.tables.specs.Props.{Fits-prop};
ghost use Rattle.link_ends.specs.LinkEnds.{Relinkable};

use normalize_tables::layout::Area;
use normalize_tables::new_graph::NewGraph;

// What settles links: the tables of a text and the normalizer's behind them, where the new segments, steps and paths are made.
#[derive(Drop)]
pub struct Relinker<'a> {
    pub text: &'a [u8],
    pub work: &'a mut [u32],
    pub a: Area,
    ghost relinkable: { Relinkable text.now work.now a.b a.n a.g a.m } by { Prim.hlevel (props, Fits-prop) },
}

impl<'a> Relinker<'a> {
    ghost use Rattle.link_ends.specs.Relinkers.{RelinkerGraph};

    // The graph whose links are settled.
    pub fn graph(&self) -> NewGraph<'_>
        ensures { RelinkerGraph self.now result }
    {
        NewGraph {
            text: self.text,
            work: self.work,
            a: self.a,
        }
    }
}
