// The reading pass: every line of a text, put into the tables.
ghost use Rattle.lines.specs.NewLines.{Findable, AddsRecord, ReadsLine};
ghost use Rattle.reader.specs.Outcomes.{Roomy, OutcomeIs};

use lines::links::add_link;
use lines::new_line::NewLine;
use lines::paths::add_path;
use lines::segments::add_segment;
use lines::sort::{Sort, sort_of};
use refusals::reason::Reason;
use refusals::refusal::Refusal;
use scan::lines::Lines;
use tables::entry::{LineEntry, RawLine, Record};
use tables::rows::put_line;
use tables::tables::{Bases, Counts, one_more};

// Adds a line: its record, and how many rows there are with it.
pub fn add_record(l: &mut NewLine) -> Result<(Record, Counts), Reason>
    requires { Findable l.old }
    ensures { AddsRecord l.old result l.new }
{
    let raw = RawLine {
        start: l.line.start as u32,
        length: l.line.size as u32,
    };
    let more = one_more(l.n, 0, 0, 0, 0);
    match sort_of(l.text, l.line) {
        Sort::Segment => add_segment(l),
        Sort::Link => add_link(l),
        Sort::Path(kind) => add_path(l, kind),
        Sort::Blank => Ok((Record::Blank(raw), more)),
        Sort::Comment => Ok((Record::Comment(raw), more)),
        Sort::Header => Ok((Record::Header(raw), more)),
        Sort::Other => Ok((Record::Other(raw), more)),
    }
}

// Reads a line: its record, and its entry.
pub fn read_line(l: &mut NewLine) -> Result<(Record, Counts), Reason>
    requires { Findable l.old }
    ensures { ReadsLine l.old result l.new }
{
    let (record, m) = add_record(l)?;
    put_line(l.work, l.b, l.n.lines, LineEntry { holds: record });
    Ok((record, m))
}

// Reads every line of a text into the tables at `b`; answers how many rows they have.
#[tactic(auto, using(crate::proofs::Progress::progress))]
pub fn read_lines(text: &[u8], work: &mut [u32], b: Bases) -> Result<Counts, Refusal>
    requires { Roomy text.now work.old b }
    ensures { OutcomeIs text.now work.old work.new b result }
{
    let mut n = Counts {
        lines: 0,
        segs: 0,
        links: 0,
        paths: 0,
        steps: 0,
    };
    for line in Lines::of(text) {
        let mut l = NewLine {
            text,
            work,
            b,
            n,
            line,
        };
        match read_line(&mut l) {
            Err(reason) => return Err(Refusal::on_line(reason, n.lines + 1)),
            Ok((_, m)) => n = m,
        }
    }
    Ok(n)
}
