// The lines of the kept links and of the added ones.
ghost use Rattle.std.specs.Prelude.{◌+◌, ◌<◌};
ghost use Rattle.normalize_tables.specs.NewByNumber.{new_step_no};
ghost use Rattle.normalize_tables.specs.NodeIds.{graph_ids};
ghost use Rattle.writers.specs.Writers.{Puts, pieces_to};
ghost use Rattle.rewrite.specs.Pieces.{kept_piece, step_end, pair_line, added_piece};

use crate::settled_graph::SettledGraph;
use new_ids::ids::put_id;
use normalize_tables::new_graph::NewGraph;
use normalize_tables::news::News;
use tables::entry::LinkNo;
use work::work::word;
use writers::pieces::put_line;
use writers::writer::Writer;

// The line of link `i`, where it is kept.
pub fn put_kept_link(w: &mut Writer, graph: &NewGraph, i: LinkNo)
    requires { i.0 < graph.now.a.n.links }
    ensures { Puts w.old (kept_piece graph.now.text.now graph.now.work.now graph.now.a.b graph.now.a.g i.0) w.new }
{
    if graph.ends(i).gone {
        return;
    }
    put_line(w, graph.link(i).line.of(graph.text));
}

// The lines of the kept links: one `for`, as `put_paths` is over another table. A function that takes what to do in each turn would be longer.
pub fn put_kept_links(w: &mut Writer, graph: &NewGraph)
    ensures { Puts w.old (pieces_to (kept_piece graph.now.text.now graph.now.work.now graph.now.a.b graph.now.a.g) graph.now.a.n.links) w.new }
{
    for i in 0..graph.a.n.links {
        put_kept_link(w, graph, LinkNo(i as u32));
    }
}

// One end of an added link, new step `k`: its name, a tab, its orientation, a tab.
#[tactic(auto, using(normalize_tables::proofs::NewsStand::nodes_named))]
pub fn put_step_end(w: &mut Writer, graph: &NewGraph, k: usize)
    requires { k < graph.now.a.m.steps }
    ensures { Puts w.old (step_end (new_step_no (graph_ids graph.now) graph.now.work.now graph.now.a.g k)) w.new }
{
    let s = graph.new_step(k);
    let NewGraph { text, work, a } = *graph;
    let news = News { text, work, a };
    put_id(w, &news, s.node);
    w.put(&[b'\t', s.mark.sign(), b'\t']);
}

// The line of an added link, from new step `k` to the step behind it.
pub fn put_added_link(w: &mut Writer, graph: &NewGraph, k: usize)
    requires { k + 1 < graph.now.a.m.steps }
    ensures { Puts w.old (pair_line (graph_ids graph.now) graph.now.work.now graph.now.a.g k) w.new }
{
    w.put(b"L\t");
    put_step_end(w, graph, k);
    put_step_end(w, graph, k + 1);
    w.put(b"0M\n");
}

// The lines of the added links.
pub fn put_added_links(w: &mut Writer, settled: &SettledGraph)
    ensures { Puts w.old (pieces_to (added_piece (graph_ids settled.now.graph) settled.now.graph.work.now settled.now.graph.a.g) settled.now.extra) w.new }
{
    for i in 0..settled.extra {
        let k = word(settled.graph.work, settled.graph.a.g.added + i);
        put_added_link(w, &settled.graph, k);
    }
}
