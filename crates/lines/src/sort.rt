// The sort of a line.
ghost use Rattle.lines.specs.Sorts.{SortIs};
ghost use Rattle.scan.specs.Places.{Inside};

use scan::places::{Place, find};
use tables::kinds::PathKind;

// The sorts of lines.
#[derive(Clone, Copy)]
pub enum Sort {
    Blank,
    Comment,
    Header,
    Segment,
    Link,
    Path(PathKind),
    Other,
}

// The sort of a line.
#[tactic(auto, using(crate::proofs::LineSorts::sorting))]
pub fn sort_of(text: &[u8], line: Place) -> Sort
    requires { Inside text.now line }
    ensures { SortIs text.now line.start line.size result }
{
    if line.size == 0 {
        return Sort::Blank;
    }
    let first = text[line.start];
    if first == b'#' {
        return Sort::Comment;
    }
    let tab = find(text, b'\t', line.start, line.start + line.size);
    if tab != line.start + 1 {
        return Sort::Other;
    }
    match first {
        b'H' => Sort::Header,
        b'S' => Sort::Segment,
        b'L' => Sort::Link,
        b'P' => Sort::Path(PathKind::P),
        b'W' => Sort::Path(PathKind::W),
        _ => Sort::Other,
    }
}
