// The counting pass: at most how many lines, segments, links and paths a text has.
ghost use Rattle.std.specs.Prelude.{◌≤◌, length};
ghost use Rattle.gfa_spec.specs.Reading.{lines};
ghost use Rattle.scan.specs.Places.{Inside};
ghost use Rattle.tables.specs.Tables.{Few};
ghost use Rattle.lines.specs.Room.{LineTally, TallyIs};

use scan::lines::Lines;
use scan::places::Place;
use tables::tables::{Counts, one_more};

// The counts with those of a line.
pub fn count_line(text: &[u8], n: Counts, line: Place) -> Counts
    requires inside { Inside text.now line }
    requires few { Few n }
    ensures { LineTally text.now line.start line.size n result }
{
    if line.size < 2 {
        return one_more(n, 0, 0, 0, 0);
    }
    match text[line.start] {
        b'S' => one_more(n, 1, 0, 0, 0),
        b'L' => one_more(n, 0, 1, 0, 0),
        b'P' | b'W' => one_more(n, 0, 0, 1, 0),
        _ => one_more(n, 0, 0, 0, 0),
    }
}

// The tally of a text.
#[tactic(auto, using(crate::proofs::Tallying::counting))]
pub fn count_text(text: &[u8]) -> Counts
    requires { length text.now ≤ 1048576 }
    ensures { TallyIs (lines text.now) result }
{
    let mut n = Counts {
        lines: 0,
        segs: 0,
        links: 0,
        paths: 0,
        steps: 0,
    };
    for line in Lines::of(text) {
        n = count_line(text, n, line);
    }
    n
}
