// A graph whose paths are transformed: the tables of its text, and behind them the new segments, the new steps and the new paths.
ghost use Rattle.std.specs.Prelude.{◌≡◌, ◌<◌};
ghost use Rattle.std.proofs.Props.{props};
ghost use Rattle.tables.specs.Props.{Fits-prop};
ghost use Rattle.tables.specs.ByNumber.{LinkIs};
ghost use Rattle.normalize_tables.specs.Layout.{Source};
ghost use Rattle.normalize_tables.specs.NewByNumber.{NewStepIs, NewPathIs, ends_no, joins};
ghost use Rattle.normalize_tables.specs.Rewritten.{NewRows};

use crate::layout::Area;
use crate::rows::{Ends, NewStepWords, ends_at, joins_at, new_path_at, new_step_at};
use tables::entry::{LinkNo, PathNo};
use tables::graph::Graph;
use tables::path_steps::Steps;
use tables::rows::LinkWords;

#[derive(Clone, Copy)]
pub struct NewGraph<'a> {
    pub text: &'a [u8],
    pub work: &'a [u32],
    pub a: Area,
    ghost source: { Source text.now work.now a.b a.n a.g } by { Prim.hlevel (props, Fits-prop) },
    ghost rows: { NewRows work.now a.n a.g a.m } by { Prim.hlevel props },
}

impl<'a> NewGraph<'a> {
    // Link `i` of the text. The readers of `NewGraph` and of `News` look alike: each is of another table.
    pub fn link(&self, i: LinkNo) -> LinkWords
        requires { i.0 < self.now.a.n.links }
        ensures { LinkIs self.now.text.now self.now.work.now self.now.a.b i.0 result }
    {
        let graph = Graph {
            text: self.text,
            work: self.work,
            b: self.a.b,
            n: self.a.n,
        };
        graph.link(i)
    }

    // The ends of link `i`.
    pub fn ends(&self, i: LinkNo) -> Ends
        requires { i.0 < self.now.a.n.links }
        ensures { result ≡ ends_no self.now.work.now self.now.a.g i.0 }
    {
        ends_at(self.work, self.a, i)
    }

    // Are these the nodes at the ends of link `i`?
    pub fn joins(&self, i: LinkNo, from: usize, to: usize) -> bool
        requires { (i.0 < self.now.a.n.links) × (from < 4294967296) × (to < 4294967296) }
        ensures { result ≡ joins self.now.work.now self.now.a.g i.0 from to }
    {
        joins_at(self.work, self.a, i, from, to)
    }

    // New step `k`.
    pub fn new_step(&self, k: usize) -> NewStepWords
        requires { k < self.now.a.m.steps }
        ensures { NewStepIs self.now.work.now self.now.a.n self.now.a.g self.now.a.m k result }
    {
        new_step_at(self.work, self.a, k)
    }

    // The new steps of new path `p`.
    pub fn new_path(&self, p: PathNo) -> Steps
        requires { p.0 < self.now.a.n.paths }
        ensures { NewPathIs self.now.work.now self.now.a.n self.now.a.g self.now.a.m p.0 result }
    {
        new_path_at(self.work, self.a, p)
    }
}
