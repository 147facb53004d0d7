// S lines: checked, and put into the segment table.
ghost use Rattle.std.specs.Prelude.{◌+◌, ◌≤◌, length};
ghost use Rattle.lines.specs.declared.sort.Sort.TheVariants as Sort;
ghost use Rattle.lines.specs.NewLines.{IsOf, Findable, AddsRecord};
ghost use Rattle.lines.specs.SegmentLines.{SegmentFieldsAre};
ghost use Rattle.scan.specs.Places.{Inside};

use crate::columns::column;
use crate::new_line::NewLine;
use refusals::reason::Reason;
use scan::places::{Place, field_at};
use tables::entry::{Record, SegmentNo};
use tables::rows::SegmentWords;
use tables::segments::insert_segment;
use tables::tables::{Counts, one_more};

// Reads the fields of an S line: the words of its row.
pub fn segment_fields(text: &[u8], line: Place) -> Result<SegmentWords, Reason>
    requires { Inside text.now line }
    ensures { SegmentFieldsAre text.now line.start line.size result }
{
    let Some(sequence) = field_at(text, line, 2) else {
        return Err(Reason::ShortSegment);
    };
    let id = column(text, line, 1);
    Ok(SegmentWords { line, id, sequence })
}

// Adds an S line: its record, and how many rows there are with it.
pub fn add_segment(l: &mut NewLine) -> Result<(Record, Counts), Reason>
    requires { IsOf l.old Sort.Segment × Findable l.old }
    ensures { AddsRecord l.old result l.new }
{
    let row = segment_fields(l.text, l.line)?;
    if l.named(row.id).is_some() {
        return Err(Reason::KnownSegment);
    }
    let i = SegmentNo(l.n.segs as u32);
    insert_segment(l.text, l.work, l.b, i, row);
    Ok((Record::Segment(i), one_more(l.n, 1, 0, 0, 0)))
}
