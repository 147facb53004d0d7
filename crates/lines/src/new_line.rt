// A line about to be read.
ghost use Rattle.std.proofs.Props.{props};
ghost use Rattle.scan.specs.Places.{Inside};
ghost use Rattle.tables.specs.ByNumber.{FoundIs};
ghost use Rattle.lines.specs.Lines.{Ready};

use scan::places::Place;
use tables::entry::SegmentNo;
use tables::segments::find_segment;
use tables::tables::{Bases, Counts};

// A line of a text whose tables have the rows of the lines before it, and room for its own.
#[derive(Drop)]
pub struct NewLine<'a> {
    pub text: &'a [u8],
    pub work: &'a mut [u32],
    pub b: Bases,
    pub n: Counts,
    pub line: Place,
    ghost ready: { Ready text.now work.now b n line.start line.size } by { Prim.hlevel props },
}

impl<'a> NewLine<'a> {
    ghost use Rattle.lines.specs.NewLines.{Findable};

    // The segment of the lines before it that has the name. `Graph::named` looks into tables that may be read whole: these may not yet.
    pub fn named(&self, name: Place) -> Option<SegmentNo>
        requires { Inside self.now.text.now name × Findable self.now }
        ensures { FoundIs self.now.text.now self.now.work.now self.now.b self.now.n.segs name result }
    {
        find_segment(self.text, self.work, self.b, self.n.segs, name)
    }
}
