// Is there a link of exactly the four parts of a pair of new steps? Nodes are compared by their numbers.
ghost use Rattle.std.specs.Prelude.{◌≡◌, ◌+◌, ◌<◌};
ghost use Rattle.std.proofs.Props.{props};
ghost use Rattle.relink.specs.Relinking.{AddedRows, PairThere, PairIs, nodes_are, marks_are, LinkMatch, KeptIs, AddedMatch, LinkFound};

use normalize_tables::new_graph::NewGraph;
use normalize_tables::rows::{Ends, NewStepWords};
use tables::entry::LinkNo;
use work::work::word;

// A new step and the step behind it.
#[derive(Clone, Copy, PartialEq, Eq)]
pub struct Pair {
    pub first: NewStepWords,
    pub second: NewStepWords,
}

// The pair of new step `step` and the step behind it.
pub fn pair_at(graph: &NewGraph, step: usize) -> Pair
    requires { step + 1 < graph.now.a.m.steps }
    ensures { PairIs graph.now.work.now graph.now.a.n graph.now.a.g graph.now.a.m step result }
{
    Pair {
        first: graph.new_step(step),
        second: graph.new_step(step + 1),
    }
}

// Has a link with these ends the nodes of the pair?
pub fn has_nodes(p: Pair, e: Ends) -> bool
    ensures { result ≡ nodes_are p e }
{
    e.from == Some(p.first.node) && e.to == Some(p.second.node)
}

// Has a link with these signs those of the pair?
pub fn has_marks(p: Pair, leaves: usize, enters: usize) -> bool
    ensures { result ≡ marks_are p leaves enters }
{
    p.first.mark.sign() as usize == leaves && p.second.mark.sign() as usize == enters
}

// A pair of new steps of a graph, for which a link is sought.
#[derive(Clone, Copy)]
pub struct Sought<'a> {
    pub graph: NewGraph<'a>,
    pub pair: Pair,
    ghost there: { PairThere graph.a.n graph.a.m pair } by { Prim.hlevel props },
}

impl<'a> Sought<'a> {
    ghost use Rattle.relink.specs.Sought.{SoughtIs};

    // The pair of new step `step` and the step behind it.
    pub fn at(graph: &NewGraph<'a>, step: usize) -> Sought<'a>
        requires { step + 1 < graph.now.a.m.steps }
        ensures { SoughtIs graph.now step result }
    {
        Sought {
            graph: *graph,
            pair: pair_at(graph, step),
        }
    }

    // Is link `i` of the text kept, with the parts of the pair? Most links are told apart by the words of their ends, before an Option is made of any;
    // the link's row is read only where it has the nodes.
    #[tactic(auto, using(crate::proofs::Lookups::matching))]
    pub fn is_link(&self, i: LinkNo) -> bool
        requires { i.0 < self.now.graph.a.n.links }
        ensures { let graph = self.now.graph in LinkMatch graph.text.now graph.work.now graph.a.b graph.a.n graph.a.g graph.a.m self.now.pair i.0 result }
    {
        if !self
            .graph
            .joins(i, self.pair.first.node, self.pair.second.node)
        {
            return false;
        }
        let e = self.graph.ends(i);
        if e.gone || !has_nodes(self.pair, e) {
            return false;
        }
        let l = self.graph.link(i);
        has_marks(
            self.pair,
            l.leaves.sign() as usize,
            l.enters.sign() as usize,
        )
    }

    // Has a kept link of the text the parts of the pair?
    #[tactic(auto, using(crate::proofs::Lookups::seeking))]
    pub fn kept_link(&self) -> bool
        ensures { let graph = self.now.graph in KeptIs graph.text.now graph.work.now graph.a.b graph.a.n graph.a.g graph.a.m self.now.pair result }
    {
        for i in 0..self.graph.a.n.links {
            if self.is_link(LinkNo(i as u32)) {
                return true;
            }
        }
        false
    }

    // Has one of the `added` links the parts of the pair?
    #[tactic(auto, using(crate::proofs::Lookups::comparing))]
    pub fn added_link(&self, added: usize) -> bool
        requires { let graph = self.now.graph in AddedRows graph.work.now graph.a.n graph.a.g graph.a.m added }
        ensures { let graph = self.now.graph in AddedMatch graph.work.now graph.a.n graph.a.g graph.a.m added self.now.pair result }
    {
        for i in 0..added {
            let other = pair_at(&self.graph, word(self.graph.work, self.graph.a.g.added + i));
            if self.pair == other {
                return true;
            }
        }
        false
    }

    // Has a kept link of the text, or one of the `added` links, the parts of the pair?
    #[tactic(auto, using(crate::proofs::Lookups::found_kept, crate::proofs::Lookups::found_added))]
    pub fn find_link(&self, added: usize) -> bool
        requires { let graph = self.now.graph in AddedRows graph.work.now graph.a.n graph.a.g graph.a.m added }
        ensures { let graph = self.now.graph in LinkFound graph.text.now graph.work.now graph.a.b graph.a.n graph.a.g graph.a.m added self.now.pair result }
    {
        self.kept_link() || self.added_link(added)
    }
}
