// The new segments made so far, whose rows stand behind the tables of a text.
ghost use Rattle.std.specs.Prelude.{◌≡◌, ◌<◌};
ghost use Rattle.std.proofs.Props.{props};
ghost use Rattle.tables.specs.Props.{Fits-prop};
ghost use Rattle.tables.specs.ByNumber.{segment_no, SegmentIs};
ghost use Rattle.normalize_tables.specs.News.{first_of};
ghost use Rattle.normalize_tables.specs.NewByNumber.{Named, NewSegmentIs};

use crate::layout::Area;
use crate::rows::{NewSegmentWords, new_segment_at};
use tables::entry::SegmentNo;
use tables::graph::Graph;
use tables::rows::SegmentWords;

#[derive(Clone, Copy)]
pub struct News<'a> {
    pub text: &'a [u8],
    pub work: &'a [u32],
    pub a: Area,
    ghost named: { Named text.now work.now a.b a.n a.g a.m.segs } by { Prim.hlevel (props, Fits-prop) },
}

impl<'a> News<'a> {
    // New segment `j`.
    pub fn new_segment(&self, j: usize) -> NewSegmentWords
        requires { j < self.now.a.m.segs }
        ensures { NewSegmentIs self.now.text.now self.now.work.now self.now.a.b self.now.a.n self.now.a.g (first_of self.now.a.m.first) j result }
    {
        new_segment_at(self.text, self.work, self.a, j)
    }

    // Segment `i` of the text.
    pub fn segment(&self, i: SegmentNo) -> SegmentWords
        requires { i.0 < self.now.a.n.segs }
        ensures { SegmentIs self.now.text.now self.now.work.now self.now.a.b i.0 result }
    {
        let graph = Graph {
            text: self.text,
            work: self.work,
            b: self.a.b,
            n: self.a.n,
        };
        graph.segment(i)
    }

    // The ID of segment `i` of the text.
    #[tactic(auto, using(crate::proofs::Nodes::segment_id))]
    pub fn segment_id(&self, i: SegmentNo) -> &'a [u8]
        requires { i.0 < self.now.a.n.segs }
        ensures { result.now ≡ (segment_no self.now.text.now self.now.work.now self.now.a.b i.0).id }
    {
        self.segment(i).id.of(self.text)
    }
}
