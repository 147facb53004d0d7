// Replays the recorded answers, which are this program's standard input: each call gets buffers that are filled with a
// pattern, and its answer, all of its output and all of its work area are compared.
#![tactic(auto)]

ghost use Rattle.std.specs.Prelude.{◌+◌, ◌≤◌, length};

mod calls;
mod counters;

use crate::calls::case_agrees;
use cases::buffers::{list_buffer, work_buffer};
use cases::lists::{Case, Cases};
use cases::tallies::{Tally, counted, print};

// Replays a case, if it is one of the service.
fn replay_case(service: u8, c: &Case<'_>, out: &mut [u8], work: &mut [u32], t: Tally) -> Tally
    requires { t.cases ≤ c.now.parts.start }
    ensures { result.cases ≤ t.cases + 1 }
{
    if c.letter() != service {
        return t;
    }
    let agrees = case_agrees(c, out, work);
    counted(t, c.header(), agrees)
}

// Replays the cases of a service, named by its first letter, in their order, and prints what became of them.
fn replay(service: u8, name: &[u8], list: &[u8], out: &mut [u8], work: &mut [u32]) {
    let mut t = Tally {
        cases: 0,
        differ: 0,
    };
    for c in Cases::of(list) {
        t = replay_case(service, &c, out, work, t);
    }
    print(name, t);
}

fn main() {
    let mut buffer = list_buffer();
    let mut out = io::large_buffer();
    let mut work = work_buffer();
    let size = io::read_full(0, &mut buffer);
    let list = &buffer[..size];
    replay(b's', b"spell", list, &mut out, &mut work);
    replay(b'r', b"report", list, &mut out, &mut work);
    replay(b'n', b"normalize", list, &mut out, &mut work);
}
