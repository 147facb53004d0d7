// The lines of the paths, with their new steps.
ghost use Rattle.std.specs.Prelude.{cond, [], ◌∷◌, ◌++◌, ◌+◌, ◌-◌, ◌≤◌, ◌<◌, eqb, length};
ghost use Rattle.gfa_spec.specs.Bytes.{part, end_line};
ghost use Rattle.gfa_spec.specs.Reading.{P, W};
ghost use Rattle.normalize_spec.specs.Writing.{step_field};
ghost use Rattle.scan.specs.Places.{Inside};
ghost use Rattle.tables.specs.Paths.{kind_in, column_of};
ghost use Rattle.normalize_tables.specs.NewByNumber.{new_path_no, step_in};
ghost use Rattle.normalize_tables.specs.NodeIds.{graph_ids, news_ids};
ghost use Rattle.writers.specs.Writers.{Puts, pieces_to};
ghost use Rattle.path_lines.specs.PathPieces.{token_of, token_piece, fields_in, overlaps_of, path_piece};

use crate::marks::mark_of;
use new_ids::ids::put_id;
use normalize_tables::new_graph::NewGraph;
use normalize_tables::news::News;
use normalize_tables::rows::NewStepWords;
use scan::places::{Place, field_at};
use tables::entry::PathNo;
use tables::graph::Graph;
use tables::kinds::PathKind;
use tables::path_steps::Steps;
use writers::pieces::put_line;
use writers::writer::Writer;

// The comma before a step of a P line, but the first.
#[tactic(auto, using(writers::proofs::Writing::puts_nothing))]
fn put_comma(w: &mut Writer, k: usize)
    ensures { Puts w.old (cond (eqb k 0) [] (44 ∷ [])) w.new }
{
    if k != 0 {
        w.put_byte(b',');
    }
}

// Step k of a P line.
fn put_p_token(w: &mut Writer, news: &News, k: usize, s: NewStepWords)
    requires { s.node < news.now.a.n.segs + news.now.a.m.segs }
    ensures { Puts w.old (token_of P k (step_in (news_ids news.now) s)) w.new }
{
    put_comma(w, k);
    put_id(w, news, s.node);
    w.put_byte(s.mark.sign());
}

// Step k of a W line.
fn put_w_token(w: &mut Writer, news: &News, k: usize, s: NewStepWords)
    requires { s.node < news.now.a.n.segs + news.now.a.m.segs }
    ensures { Puts w.old (token_of W k (step_in (news_ids news.now) s)) w.new }
{
    w.put_byte(mark_of(s.mark.sign() as usize));
    put_id(w, news, s.node);
}

// Step k of those from new step `first` on, in a line of the kind.
#[tactic(auto, using(normalize_tables::proofs::NewsStand::nodes_named))]
pub fn put_token(w: &mut Writer, graph: &NewGraph, kind: PathKind, first: usize, k: usize)
    requires { first + k < graph.now.a.m.steps }
    ensures { Puts w.old
        (token_piece (kind_in kind) (graph_ids graph.now) graph.now.work.now graph.now.a.g first k) w.new }
{
    let s = graph.new_step(first + k);
    let NewGraph { text, work, a } = *graph;
    let news = News { text, work, a };
    match kind {
        PathKind::P => put_p_token(w, &news, k, s),
        PathKind::W => put_w_token(w, &news, k, s),
    }
}

// Some new steps, as a line of the kind has them.
pub fn put_tokens(w: &mut Writer, graph: &NewGraph, kind: PathKind, steps: Steps)
    requires { steps.end ≤ graph.now.a.m.steps }
    ensures { Puts w.old
        (pieces_to (token_piece (kind_in kind) (graph_ids graph.now) graph.now.work.now graph.now.a.g steps.first) (steps.end - steps.first)) w.new }
{
    for k in 0..steps.end - steps.first {
        put_token(w, graph, kind, steps.first, k);
    }
}

// The field of the steps of path `p`.
pub fn put_steps(w: &mut Writer, graph: &NewGraph, kind: PathKind, p: PathNo)
    requires { p.0 < graph.now.a.n.paths }
    ensures { Puts w.old
        (step_field (kind_in kind) (new_path_no (graph_ids graph.now) graph.now.work.now graph.now.a.g p.0)) w.new }
{
    let steps = graph.new_path(p);
    if steps.first == steps.end {
        w.put_byte(b'*');
    } else {
        put_tokens(w, graph, kind, steps);
    }
}

// The end of a P line, with the overlaps `*` where it has none.
fn put_overlaps(w: &mut Writer, text: &[u8], line: Place)
    requires { Inside text.now line × (2 < length (fields_in text.now line)) }
    ensures { Puts w.old (end_line (overlaps_of P (fields_in text.now line))) w.new }
{
    match field_at(text, line, 3) {
        Some(_) => w.put_byte(b'\n'),
        None => w.put(b"\t*\n"),
    }
}

// What stands in a path's line behind the field of the steps, which ends at `end`; a P line without overlaps gets them.
pub fn put_rest(w: &mut Writer, text: &[u8], line: Place, kind: PathKind, end: usize)
    requires { Inside text.now line × (line.start ≤ end) × (end ≤ line.start + line.size) × (column_of (kind_in kind) < length (fields_in text.now line)) }
    ensures { Puts w.old
        (end_line (part end (line.start + line.size - end) text.now ++ overlaps_of (kind_in kind) (fields_in text.now line))) w.new }
{
    w.put(&text[end..line.start + line.size]);
    match kind {
        PathKind::P => put_overlaps(w, text, line),
        PathKind::W => w.put_byte(b'\n'),
    }
}

// Path `p` with its new steps: its line up to the field of the steps, that field, and what stands behind it.
pub fn put_path(w: &mut Writer, graph: &NewGraph, p: PathNo)
    requires { p.0 < graph.now.a.n.paths }
    ensures { Puts w.old (path_piece (graph_ids graph.now) graph.now.text.now graph.now.work.now graph.now.a.b graph.now.a.g p.0) w.new }
{
    let NewGraph { text, work, a } = *graph;
    let old = Graph {
        text,
        work,
        b: a.b,
        n: a.n,
    };
    let path = old.path(p);
    let line = path.line;
    let Some(steps) = field_at(text, line, path.kind.column()) else {
        return put_line(w, line.of(text));
    };
    w.put(&text[line.start..steps.start]);
    put_steps(w, graph, path.kind, p);
    put_rest(w, text, line, path.kind, steps.start + steps.size);
}

// The lines of the paths.
pub fn put_paths(w: &mut Writer, graph: &NewGraph)
    ensures { Puts w.old
        (pieces_to (path_piece (graph_ids graph.now) graph.now.text.now graph.now.work.now graph.now.a.b graph.now.a.g) graph.now.a.n.paths) w.new }
{
    for p in 0..graph.a.n.paths {
        put_path(w, graph, PathNo(p as u32));
    }
}
