// Counts over the tables, each in one pass (document 01, the counters of "Folding" and the report's totals).
ghost use Rattle.std.specs.Prelude.{◌≡◌, ◌≤◌};
ghost use Rattle.gfa_spec.specs.Bytes.{count as count_of};
ghost use Rattle.gfa_spec.specs.Records.{is_self_link};
ghost use Rattle.scan.specs.Places.{Inside};
ghost use Rattle.tables.specs.ByNumber.{links_to, link_of};
ghost use Rattle.runs.specs.Counts.{PairsIs, PairTotals};

use crate::runs::{same_node, same_step};
use scan::names::same_name;
use tables::entry::{LinkNo, PathNo};
use tables::graph::Graph;
use tables::path_steps::Steps;
use tables::rows::LinkWords;

// Adjacent pairs of steps: those on one node, and those of equal steps.
#[derive(Clone, Copy)]
pub struct Pairs {
    pub nodes: usize,
    pub steps: usize,
}

// The adjacent pairs of some steps. `count_new_pairs` (fold) is of new steps: there nodes are compared by their numbers, here by their names in a text.
#[tactic(auto, using(crate::proofs::Totals::pairing))]
pub fn count_pairs(graph: &Graph, among: Steps) -> Pairs
    requires { among.end ≤ graph.now.n.steps }
    ensures { PairsIs graph.now.text.now graph.now.work.now graph.now.b among.first among.end result }
{
    let mut nodes = 0;
    let mut steps = 0;
    for j in among.first + 1..among.end {
        let last = graph.step(j - 1);
        let here = graph.step(j);
        nodes += usize::from(same_node(graph.text, last, here));
        steps += usize::from(same_step(graph.text, last, here));
    }
    Pairs { nodes, steps }
}

// The adjacent pairs of all paths.
pub fn all_pairs(graph: &Graph) -> Pairs
    ensures { PairTotals graph.now.text.now graph.now.work.now graph.now.b graph.now.n result }
{
    let mut nodes = 0;
    let mut steps = 0;
    for i in 0..graph.n.paths {
        let path = graph.path(PathNo(i as u32));
        let more = count_pairs(graph, path.steps);
        nodes += more.nodes;
        steps += more.steps;
    }
    Pairs { nodes, steps }
}

// Has the link equal ends?
#[tactic(auto, unfolding(gfa_spec::specs::Records::is_self_link))]
pub fn is_self_link(text: &[u8], l: LinkWords) -> bool
    requires from { Inside text.now l.from }
    requires to { Inside text.now l.to }
    ensures { result ≡ is_self_link (link_of text.now l) }
{
    same_name(text, l.from, l.to)
}

// The links with equal ends.
pub fn self_links(graph: &Graph) -> usize
    ensures { result ≡ count_of is_self_link (links_to graph.now.text.now graph.now.work.now graph.now.b graph.now.n.links) }
{
    let mut total = 0;
    for i in 0..graph.n.links {
        total += usize::from(is_self_link(graph.text, graph.link(LinkNo(i as u32))));
    }
    total
}
