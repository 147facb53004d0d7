// What counts nodes.
ghost use Rattle.std.proofs.Props.{props};
ghost use Rattle.tables.specs.Props.{Fits-prop};
ghost use Rattle.tables.specs.Tables.{Readable};

use tables::graph::Graph;
use tables::tables::{Bases, Counts};

// What counts nodes: the tables of a text, and behind them the rows of the `m` nodes that are found.
#[derive(Drop)]
pub struct Counting<'a> {
    pub text: &'a [u8],
    pub work: &'a mut [u32],
    pub b: Bases,
    pub n: Counts,
    pub m: usize,
    ghost readable: { Readable text.now work.now b n } by { Prim.hlevel (props, Fits-prop) },
}

impl<'a> Counting<'a> {
    ghost use Rattle.tally.specs.Countings.{CountingGraph};

    // The graph whose nodes are counted, as `Normalizer::graph` (crate normalize_tables) gives its own.
    pub fn graph(&self) -> Graph<'_>
        ensures { CountingGraph self.now result }
    {
        Graph {
            text: self.text,
            work: self.work,
            b: self.b,
            n: self.n,
        }
    }
}
