// What transforms the paths of a text.
ghost use Rattle.std.proofs.Props.{props};
ghost use Rattle.tables.specs.Props.{Fits-prop};
ghost use Rattle.fold.specs.Turns.{Stage};

use normalize_tables::layout::Area;
use normalize_tables::news::News;
use tables::graph::Graph;

// What transforms paths: the tables of a text and the normalizer's behind them, where what was made so far stands.
#[derive(Drop)]
pub struct Folding<'a, 'b> {
    pub text: &'a [u8],
    pub work: &'b mut [u32],
    pub a: Area,
    ghost stage: { Stage text.now work.now a.b a.n a.g a.m } by { Prim.hlevel (props, Fits-prop) },
}

impl<'a, 'b> Folding<'a, 'b> {
    ghost use Rattle.fold.specs.Foldings.{FoldingGraph, FoldingNews};

    // The graph whose paths are transformed.
    pub fn graph(&self) -> Graph<'_>
        ensures { FoldingGraph self.now result }
    {
        Graph {
            text: self.text,
            work: self.work,
            b: self.a.b,
            n: self.a.n,
        }
    }

    // The new segments made so far.
    pub fn news(&self) -> News<'_>
        ensures { FoldingNews self.now result }
    {
        News {
            text: self.text,
            work: self.work,
            a: self.a,
        }
    }
}
