// Lines that are written as they came: headers, comments and blanks, segments, and other lines. Each section is one `for` over its own table.
ghost use Rattle.std.specs.Prelude.{◌≡◌, ◌<◌};
ghost use Rattle.writers.specs.Writers.{Puts, pieces_to};
ghost use Rattle.rewrite.specs.Pieces.{raw_of, raw_piece, segment_piece};

use scan::places::Place;
use tables::entry::{Record, SegmentNo};
use tables::graph::Graph;
use writers::pieces::put_line;
use writers::writer::Writer;

// The classes of raw lines: headers, comments and blanks; and the others.
#[derive(Clone, Copy)]
pub enum Class {
    Leading,
    Other,
}

// The raw line of the class that a record holds, if it holds one.
#[tactic(auto, unfolding(crate::specs::Pieces::raw_of))]
pub fn raw_of(class: Class, r: Record) -> Option<Place>
    ensures { result ≡ raw_of class r }
{
    match class {
        Class::Leading => match r {
            Record::Header(l) | Record::Comment(l) | Record::Blank(l) => Some(Place::from(l)),
            Record::Segment(_) | Record::Link(_) | Record::Path(_) | Record::Other(_) => None,
        },
        Class::Other => match r {
            Record::Other(l) => Some(Place::from(l)),
            _ => None,
        },
    }
}

// Line `i`, where it is a raw line of the class.
pub fn put_raw_line(w: &mut Writer, graph: &Graph, class: Class, i: usize)
    requires { i < graph.now.n.lines }
    ensures { Puts w.old (raw_piece class graph.now.text.now graph.now.work.now graph.now.b i) w.new }
{
    if let Some(line) = raw_of(class, graph.line(i).holds) {
        put_line(w, line.of(graph.text));
    }
}

// The raw lines of a class.
pub fn put_raw(w: &mut Writer, graph: &Graph, class: Class)
    ensures { Puts w.old (pieces_to (raw_piece class graph.now.text.now graph.now.work.now graph.now.b) graph.now.n.lines) w.new }
{
    for i in 0..graph.n.lines {
        put_raw_line(w, graph, class, i);
    }
}

// The line of segment `i`.
pub fn put_segment(w: &mut Writer, graph: &Graph, i: SegmentNo)
    requires { i.0 < graph.now.n.segs }
    ensures { Puts w.old (segment_piece graph.now.text.now graph.now.work.now graph.now.b i.0) w.new }
{
    put_line(w, graph.segment(i).line.of(graph.text));
}

// The lines of the segments.
pub fn put_segments(w: &mut Writer, graph: &Graph)
    ensures { Puts w.old (pieces_to (segment_piece graph.now.text.now graph.now.work.now graph.now.b) graph.now.n.segs) w.new }
{
    for i in 0..graph.n.segs {
        put_segment(w, graph, SegmentNo(i as u32));
    }
}
