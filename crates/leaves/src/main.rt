// Calls each leaf on the cases of the list that is this program's standard input, and compares its answer and its output buffer, which
// holds a pattern before the call. docs/ANSWERS.md says the format.
#![tactic(auto)]

ghost use Rattle.std.specs.Prelude.{◌-◌, ◌≤◌, length};
ghost use Rattle.gfa_spec.specs.Bytes.{part};
ghost use Rattle.cases.specs.Cases.{Tells, LeftBytes};

mod placing;
mod reading;
mod writing;

use crate::writing::writing;
use cases::agreement::agrees;
use cases::buffers::fill_bytes;
use cases::headers::ROOM;
use cases::lists::{Case, Cases};
use cases::tallies::{Tally, counted, print};

// Calls the leaf that a case names, on a buffer that holds a pattern: are its answer and the buffer as expected?
fn case_agrees(c: &Case<'_>, out: &mut [u8]) -> bool
    ensures { Tells (LeftBytes out.new (part c.now.parts.output (c.now.parts.last - c.now.parts.output) c.now.list.now)) result }
{
    let room = c.row[ROOM].min(out.len());
    fill_bytes(out);
    let answer = writing(c.name(), &c.row, c.text(), &mut out[..room]);
    agrees(c, &answer, &[], out)
}

// Runs the cases in their order.
fn run(list: &[u8], out: &mut [u8]) -> Tally {
    let mut t = Tally {
        cases: 0,
        differ: 0,
    };
    for c in Cases::of(list) {
        let agrees = case_agrees(&c, out);
        t = counted(t, c.header(), agrees);
    }
    t
}

fn main() {
    let mut list = io::large_buffer();
    let mut out = [0u8; 64];
    let size = io::read_full(0, &mut list);
    print(b"leaves", run(&list[..size], &mut out));
}
