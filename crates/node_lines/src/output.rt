// The lines of a node.
ghost use Rattle.std.specs.Prelude.{◌≡◌, [], ◌∷◌, map, ◌<◌};
ghost use Rattle.gfa_spec.specs.Bytes.{bytes, join, join_with, ended, end_line};
ghost use Rattle.scan.specs.Places.{bytes_in, Inside};
ghost use Rattle.tables.specs.Paths.{kind_in};
ghost use Rattle.tables.specs.Segments.{FoundBelow};
ghost use Rattle.writers.specs.Writers.{Puts};
ghost use Rattle.report_spec.specs.Lines.{line, number as number_line, node_lines};
ghost use Rattle.nodes.specs.Counters.{PathBelow};
ghost use Rattle.ranks.specs.Ranking.{order_from};
ghost use Rattle.node_lines.specs.NodeLines.{pairs_from, pair_piece, preview_from, path_from, name_column, node_from, node_in, Printable, RowReady, listed, Listed};

use nodes::counters::{Counter, counter_at};
use nodes::nodes::{NodeWords, node_at};
use ranks::ranking::order_from;
use scan::places::field_at;
use sequences::preview::put_preview;
use tables::entry::{PathNo, SegmentNo};
use tables::graph::Graph;
use tables::kinds::PathKind;
use work::work::word;
use writers::pieces::{put_number_line, put_number_lines, put_value_line};
use writers::writer::Writer;

// The orientation pair of a weight, where it is there; behind a comma, where another is before it.
pub fn put_pair(w: &mut Writer, bits: usize, weight: usize, a: u8, b: u8)
    requires { 0 < weight }
    ensures { Puts w.old (pair_piece bits weight a b) w.new }
{
    if bits / weight % 2 != 1 {
        return;
    }
    if bits % weight == 0 {
        w.put(&[a, b]);
    } else {
        w.put(&[b',', a, b]);
    }
}

// The orientation pairs with commas between, as a line.
pub fn put_pairs(w: &mut Writer, bits: usize)
    requires { bits < 16 }
    ensures { Puts w.old (end_line (line (bytes "link_orientations") (join_with 44 (pairs_from bits)))) w.new }
{
    w.put(b"link_orientations=");
    put_pair(w, bits, 1, b'+', b'+');
    put_pair(w, bits, 2, b'+', b'-');
    put_pair(w, bits, 4, b'-', b'+');
    put_pair(w, bits, 8, b'-', b'-');
    w.put_byte(b'\n');
}

// The first lines of a node: its name, its segment's number and the length of its sequence.
pub fn put_names(w: &mut Writer, text: &[u8], node: NodeWords)
    requires { Inside text.now node.name }
    ensures { Puts w.old (ended
        (line (bytes "node") (bytes_in text.now node.name)
        ∷ number_line (bytes "order") (order_from node.number)
        ∷ number_line (bytes "sequence_len") node.long ∷ [])) w.new }
{
    put_value_line(w, b"node", node.name.of(text));
    put_number_line(w, b"order", order_from(node.number) as u64);
    put_number_line(w, b"sequence_len", node.long as u64);
}

// The preview of the segment of a number, where there is one, as a line.
pub fn put_preview_line(w: &mut Writer, graph: &Graph, number: Option<SegmentNo>)
    requires { FoundBelow graph.now.n.segs number }
    ensures { Puts w.old (end_line (line (bytes "sequence_preview") (preview_from graph.now.text.now graph.now.work.now graph.now.b number))) w.new }
{
    let Some(no) = number else {
        put_value_line(w, b"sequence_preview", b"");
        return;
    };
    w.put(b"sequence_preview=");
    put_preview(w, graph.segment(no).sequence.of(graph.text));
    w.put_byte(b'\n');
}

// The six lines of what is counted on paths.
#[tactic(auto, unfolding(gfa_spec::specs::Bytes::bytes, report_spec::specs::Lines::line, report_spec::specs::Lines::number))]
pub fn put_counts(w: &mut Writer, c: Counter)
    ensures { Puts w.old (ended
        (number_line (bytes "total_path_visits") c.visits
        ∷ number_line (bytes "distinct_paths") c.paths
        ∷ number_line (bytes "adjacent_same_node_path_steps") c.adjacent
        ∷ number_line (bytes "adjacent_same_step_path_steps") c.equal
        ∷ number_line (bytes "repeated_path_runs") c.runs
        ∷ number_line (bytes "max_repeat_run_len") c.longest ∷ [])) w.new }
{
    let lines: [(&[u8], u64); 6] = [
        (b"total_path_visits", c.visits as u64),
        (b"distinct_paths", c.paths as u64),
        (b"adjacent_same_node_path_steps", c.adjacent as u64),
        (b"adjacent_same_step_path_steps", c.equal as u64),
        (b"repeated_path_runs", c.runs as u64),
        (b"max_repeat_run_len", c.longest as u64),
    ];
    put_number_lines(w, &lines);
}

// The field that holds the name of a path of this kind.
#[tactic(auto, unfolding(crate::specs::NodeLines::name_column))]
fn name_column(kind: PathKind) -> usize
    ensures { result ≡ name_column (kind_in kind) }
{
    match kind {
        PathKind::P => 1,
        PathKind::W => 3,
    }
}

// The name of a path; nothing where there is none, nor where its line has no such field.
#[tactic(auto, using(crate::proofs::Pieces::path_none, scan::proofs::Fields::found_at))]
fn path_name<'a>(graph: &Graph<'a>, number: Option<PathNo>) -> &'a [u8]
    requires { PathBelow graph.now.n.paths number }
    ensures { result.now ≡ path_from graph.now.text.now graph.now.work.now graph.now.b number }
{
    let Some(no) = number else {
        return b"";
    };
    let path = graph.path(no);
    match field_at(graph.text, path.line, name_column(path.kind)) {
        Some(name) => name.of(graph.text),
        None => b"",
    }
}

// The name of a path, where there is one, as a line.
#[tactic(auto, unfolding(gfa_spec::specs::Bytes::bytes, report_spec::specs::Lines::line))]
pub fn put_path_line(w: &mut Writer, graph: &Graph, number: Option<PathNo>)
    requires { PathBelow graph.now.n.paths number }
    ensures { Puts w.old (end_line (line (bytes "max_repeat_run_path") (path_from graph.now.text.now graph.now.work.now graph.now.b number))) w.new }
{
    put_value_line(w, b"max_repeat_run_path", path_name(graph, number));
}

// The self-links of a node and their orientation pairs.
pub fn put_links(w: &mut Writer, node: NodeWords)
    requires { node.bits < 16 }
    ensures { Puts w.old (ended
        (number_line (bytes "direct_self_loop_edges") node.links
        ∷ line (bytes "link_orientations") (join_with 44 (pairs_from node.bits)) ∷ [])) w.new }
{
    put_number_line(w, b"direct_self_loop_edges", node.links as u64);
    put_pairs(w, node.bits);
}

// The thirteen lines of a node, by the words of its row.
pub fn put_node_row(w: &mut Writer, graph: &Graph, node: NodeWords, c: Counter)
    requires { RowReady graph.now.text.now graph.now.n node c }
    ensures { Puts w.old (ended (node_lines (node_from graph.now.text.now graph.now.work.now graph.now.b node c))) w.new }
{
    put_names(w, graph.text, node);
    put_preview_line(w, graph, node.number);
    put_links(w, node);
    put_counts(w, c);
    put_path_line(w, graph, c.first);
}

// The lines of node `k`.
pub fn put_node(w: &mut Writer, graph: &Graph, k: usize)
    requires { Printable graph.now.text.now graph.now.work.now graph.now.b graph.now.n k }
    ensures { Puts w.old (ended (node_lines (node_in graph.now.text.now graph.now.work.now graph.now.b graph.now.n k))) w.new }
{
    let table = graph.end();
    let node = node_at(graph.work, table, k);
    let c = counter_at(graph.work, table, k);
    put_node_row(w, graph, node, c);
}

// The lines of the nodes whose numbers stand from the word `nums` on.
pub fn put_nodes(w: &mut Writer, graph: &Graph, nums: usize, count: usize)
    requires { Listed graph.now.text.now graph.now.work.now graph.now.b graph.now.n nums count }
    ensures { Puts w.old (ended (join (map node_lines (listed graph.now.text.now graph.now.work.now graph.now.b graph.now.n nums count)))) w.new }
{
    for i in 0..count {
        put_node(w, graph, word(graph.work, nums + i));
    }
}
