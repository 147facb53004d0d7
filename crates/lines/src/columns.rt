// The columns of a line: fields that are known to be there.
ghost use Rattle.lines.specs.Columns.{HasColumn};
ghost use Rattle.scan.specs.Places.{FoundAt};

use scan::places::{Place, field_at};

// Field `k`, counted from 0, of a line that has more than `k` fields.
pub fn column(text: &[u8], line: Place, k: usize) -> Place
    requires { HasColumn text.now line.start line.size k }
    ensures { FoundAt text.now line.start line.size k result.start result.size }
{
    field_at(text, line, k).unwrap()
}
