// A graph whose paths are transformed and whose links are settled.
ghost use Rattle.std.specs.Prelude.{◌≤◌};
ghost use Rattle.std.proofs.Props.{props};
ghost use Rattle.work.specs.Rows.{EachRow};
ghost use Rattle.normalize_tables.specs.News.{KeyRow};

use normalize_tables::new_graph::NewGraph;

// The graph, and how many links are added to it: the word of each says from which new step it leads to the step behind that.
#[derive(Clone, Copy)]
pub struct SettledGraph<'a> {
    pub graph: NewGraph<'a>,
    pub extra: usize,
    ghost keys: { EachRow (KeyRow graph.a.m.steps) 1 graph.work.now graph.a.g.added extra } by { Prim.hlevel props },
    ghost few: { extra ≤ graph.a.m.steps } by { Prim.hlevel props },
}
