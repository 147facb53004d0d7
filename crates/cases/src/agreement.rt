// What a call answers and leaves in its output buffer, against what its case says.
ghost use Rattle.cases.specs.Cases.{Tells, Agrees};

use crate::buffers::bytes_left;
use crate::headers::{ANSWER, MORE, ROOM, same_numbers};
use crate::lists::Case;

// Are the four numbers that a call answers and what more it counts those of the case, and does its buffer hold the output of the case?
// A case that its list cuts off, or that asks for a longer buffer, does not agree.
pub fn agrees(c: &Case<'_>, answer: &[usize; 4], more: &[usize], out: &[u8]) -> bool
    ensures { Tells (Agrees c.now.list.now c.now.parts c.now.row answer.now more.now out.now) result }
{
    c.is_whole()
        && c.row[ROOM] <= out.len()
        && same_numbers(&c.row, ANSWER, answer)
        && same_numbers(&c.row, MORE, more)
        && bytes_left(out, c.output())
}
