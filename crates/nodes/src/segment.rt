// What the segment of a node says: its number and the length of its sequence.
ghost use Rattle.scan.specs.Places.{Inside};
ghost use Rattle.nodes.specs.Table.{KnownIs};

use scan::places::Place;
use scan::sequences::sequence_len;
use tables::entry::SegmentNo;
use tables::graph::Graph;

// A segment's number, where there is one, and the length of its sequence.
#[derive(Clone, Copy)]
pub struct Known {
    pub number: Option<SegmentNo>,
    pub long: usize,
}

// The segment that has a name.
#[tactic(auto, using(crate::proofs::Segments::knowing))]
pub fn segment_of(graph: &Graph, name: Place) -> Known
    requires { Inside graph.now.text.now name }
    ensures { KnownIs graph.now.text.now graph.now.work.now graph.now.b graph.now.n name result }
{
    let number = graph.named(name);
    let long = match number {
        Some(no) => sequence_len(graph.segment(no).sequence.of(graph.text)),
        None => 0,
    };
    Known { number, long }
}
