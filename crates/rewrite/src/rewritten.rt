// The rewritten text, section by section.
ghost use Rattle.writers.specs.Writers.{Puts};
ghost use Rattle.rewrite.specs.Rewriting.{front_at, back_at, WroteText};

use crate::lines::{Class, put_raw, put_segments};
use crate::links::{put_added_links, put_kept_links};
use crate::news::put_new_segments;
use crate::settled_graph::SettledGraph;
use normalize_tables::new_graph::NewGraph;
use normalize_tables::news::News;
use path_lines::paths::put_paths;
use tables::graph::Graph;
use writers::writer::Writer;

// Headers, comments and blanks, the segments, the new segments, and the other lines.
#[tactic(auto, using(normalize_tables::proofs::NewsStand::nodes_named))]
pub fn put_front(w: &mut Writer, graph: &NewGraph)
    ensures { Puts w.old (front_at graph.now.text.now graph.now.work.now graph.now.a.b graph.now.a.n graph.now.a.g graph.now.a.m) w.new }
{
    let NewGraph { text, work, a } = *graph;
    let old = Graph {
        text,
        work,
        b: a.b,
        n: a.n,
    };
    put_raw(w, &old, Class::Leading);
    put_segments(w, &old);
    put_new_segments(w, &News { text, work, a });
    put_raw(w, &old, Class::Other);
}

// The kept links, the added links, and the paths.
pub fn put_back(w: &mut Writer, settled: &SettledGraph)
    ensures { let graph = settled.now.graph in Puts w.old (back_at graph.text.now graph.work.now graph.a.b graph.a.n graph.a.g graph.a.m settled.now.extra) w.new }
{
    put_kept_links(w, &settled.graph);
    put_added_links(w, settled);
    put_paths(w, &settled.graph);
}

// The rewritten text.
pub fn put_rewritten(w: &mut Writer, settled: &SettledGraph)
    ensures { let graph = settled.now.graph in WroteText w.old graph.text.now graph.work.now graph.a.b graph.a.n graph.a.g graph.a.m settled.now.extra w.new }
{
    put_front(w, &settled.graph);
    put_back(w, settled);
}
