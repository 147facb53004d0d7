// The ends of the links of the text as node numbers, three words a link, and which links are removed (document 01, "Folding", rule 6).
ghost use Rattle.std.specs.Prelude.{◌≡◌, ◌+◌, ◌≤◌, ◌<◌, true, length};
ghost use Rattle.gfa_spec.specs.Bytes.{distinct};
ghost use Rattle.scan.specs.Places.{Inside};
ghost use Rattle.tables.specs.Segments.{ids_of};
ghost use Rattle.tables.specs.ByNumber.{segments_of};
ghost use Rattle.link_ends.specs.LinkEnds.{GoneIs, EndsIs};
ghost use Rattle.link_ends.specs.Relinkers.{SettlesEnds, SettlesAllEnds};

use crate::relinker::Relinker;
use new_ids::ids::find_node;
use normalize_tables::layout::Layout;
use normalize_tables::new_graph::NewGraph;
use normalize_tables::news::News;
use normalize_tables::rows::{Ends, is_marked, put_ends};
use runs::counts::is_self_link;
use tables::entry::LinkNo;
use tables::graph::Graph;
use tables::rows::LinkWords;

// Is the link removed? `from` is the number of its first node.
pub fn is_gone(graph: &Graph, g: Layout, l: LinkWords, from: Option<usize>) -> bool
    requires marks_in { g.folded + graph.now.n.segs ≤ length graph.now.work.now }
    requires apart { distinct (ids_of (segments_of graph.now.text.now graph.now.work.now graph.now.b graph.now.n)) ≡ true }
    requires ends_in { Inside graph.now.text.now l.from × Inside graph.now.text.now l.to }
    ensures { GoneIs graph.now.text.now graph.now.work.now graph.now.b graph.now.n g l from result }
{
    let Some(k) = from else {
        return false;
    };
    if graph.n.segs <= k || l.leaves != l.enters {
        return false;
    }
    is_self_link(graph.text, l) && is_marked(graph.work, g.folded + k)
}

// The ends of a link.
#[tactic(auto, using(normalize_tables::proofs::NewsStand::nodes_named))]
pub fn ends_of(graph: &NewGraph, l: LinkWords) -> Ends
    requires { Inside graph.now.text.now l.from × Inside graph.now.text.now l.to }
    ensures { EndsIs graph.now.text.now graph.now.work.now graph.now.a.b graph.now.a.n graph.now.a.g graph.now.a.m l result }
{
    let NewGraph { text, work, a } = *graph;
    let news = News { text, work, a };
    let from = find_node(&news, l.from);
    let to = find_node(&news, l.to);
    let old = Graph {
        text,
        work,
        b: a.b,
        n: a.n,
    };
    let gone = is_gone(&old, a.g, l, from);
    Ends { from, to, gone }
}

// Puts the words of link `i`; answers whether it is removed.
pub fn settle_ends(links: &mut Relinker, i: LinkNo) -> bool
    requires { i.0 < links.old.a.n.links }
    ensures { SettlesEnds links.old i.0 result links.new }
{
    let g = links.a.g;
    let graph = links.graph();
    let e = ends_of(&graph, graph.link(i));
    put_ends(links.work, g, i, e);
    e.gone
}

// Puts the words of all links; answers how many are removed.
pub fn put_all_ends(links: &mut Relinker) -> usize
    ensures { SettlesAllEnds links.old result links.new }
{
    let mut removed = 0;
    for i in 0..links.a.n.links {
        removed += usize::from(settle_ends(links, LinkNo(i as u32)));
    }
    removed
}
