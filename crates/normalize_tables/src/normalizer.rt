// What folds a text.
ghost use Rattle.std.proofs.Props.{props};
ghost use Rattle.tables.specs.Props.{Fits-prop};
ghost use Rattle.normalize_tables.specs.Layout.{Source};

use crate::layout::Layout;
use tables::graph::Graph;
use tables::tables::{Bases, Counts};

// What folds a text: its tables, and where the normalizer's are behind them.
#[derive(Drop)]
pub struct Normalizer<'a> {
    pub text: &'a [u8],
    pub work: &'a mut [u32],
    pub b: Bases,
    pub n: Counts,
    pub g: Layout,
    ghost source: { Source text.now work.now b n g } by { Prim.hlevel (props, Fits-prop) },
}

impl<'a> Normalizer<'a> {
    ghost use Rattle.normalize_tables.specs.Normalizers.{NormalizerGraph};

    // The graph that is folded. `Counting`, `Marker` and others have a reader like this: each lends the work area that it holds. A struct of these
    // within another was tried, a `Relinker` in `Adder`: what is lent within a struct in a struct is not found to come back.
    pub fn graph(&self) -> Graph<'_>
        ensures { NormalizerGraph self.now result }
    {
        Graph {
            text: self.text,
            work: self.work,
            b: self.b,
            n: self.n,
        }
    }
}
