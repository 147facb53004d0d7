// L lines: checked, and put into the link table.
ghost use Rattle.lines.specs.declared.sort.Sort.TheVariants as Sort;
ghost use Rattle.lines.specs.Columns.{HasColumn};
ghost use Rattle.lines.specs.NewLines.{IsOf, AddsRecord};
ghost use Rattle.lines.specs.LinkLines.{SignRead, EndRead, LinkFieldsAre};
ghost use Rattle.scan.specs.Places.{Inside};

use crate::columns::column;
use crate::new_line::NewLine;
use refusals::reason::Reason;
use scan::orientation::Orientation;
use scan::places::{Place, field_at};
use tables::entry::{LinkNo, Record};
use tables::rows::{LinkWords, put_link};
use tables::tables::{Counts, one_more};

// The orientation that a field says: a single + or -. It is refused with `empty` where it is empty, and else with `other`, whatever these are.
pub fn parse_orientation<R: Copy>(s: &[u8], empty: R, other: R) -> Result<Orientation, R>
    ensures { SignRead s.now empty other result }
{
    if s.is_empty() {
        return Err(empty);
    }
    if 1 < s.len() {
        return Err(other);
    }
    Orientation::of(s[0]).ok_or(other)
}

// An end of a link: the place of its segment's name, which is the column `name`, and its orientation, which is the column `mark`.
pub fn end_of<R: Copy>(
    text: &[u8],
    line: Place,
    name: usize,
    mark: usize,
    empty: R,
    other: R,
) -> Result<(Place, Orientation), R>
    requires named { HasColumn text.now line.start line.size name }
    requires marked { HasColumn text.now line.start line.size mark }
    ensures { EndRead text.now line.start line.size name mark empty other result }
{
    let place = column(text, line, name);
    let sign = column(text, line, mark);
    let orientation = parse_orientation(sign.of(text), empty, other)?;
    Ok((place, orientation))
}

// Reads the fields of an L line: the words of its row.
pub fn link_fields(text: &[u8], line: Place) -> Result<LinkWords, Reason>
    requires { Inside text.now line }
    ensures { LinkFieldsAre text.now line.start line.size result }
{
    let Some(_) = field_at(text, line, 5) else {
        return Err(Reason::ShortLink);
    };
    let (from, leaves) = end_of(text, line, 1, 2, Reason::NoFromSign, Reason::BadFromSign)?;
    let (to, enters) = end_of(text, line, 3, 4, Reason::NoToSign, Reason::BadToSign)?;
    Ok(LinkWords {
        line,
        from,
        leaves,
        to,
        enters,
    })
}

// Adds an L line: its record, and how many rows there are with it.
pub fn add_link(l: &mut NewLine) -> Result<(Record, Counts), Reason>
    requires { IsOf l.old Sort.Link }
    ensures { AddsRecord l.old result l.new }
{
    let row = link_fields(l.text, l.line)?;
    let i = LinkNo(l.n.links as u32);
    put_link(l.work, l.b, i, row);
    Ok((Record::Link(i), one_more(l.n, 0, 1, 0, 0)))
}
