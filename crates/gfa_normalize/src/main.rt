// Prints standard input, which has at most 2,048 bytes, normalized with no cap; or the lines of a refusal.
#![tactic(auto)]

ghost use Rattle.std.specs.Prelude.{length};
ghost use Rattle.normalize_spec.specs.Services.{normalize};
ghost use Rattle.normalize_answers.specs.Answered.{outcome_of};
ghost use Rattle.console.specs.Printed.{limited, Prints};

use console::{is_long, refuse_long, show};
use normalize::services::normalize_self_loop_runs;

// Puts what is to be printed at the front of `out`, and answers how many bytes that is.
fn print_normalized(text: &[u8], out: &mut [u8], work: &mut [u32]) -> usize
    ensures { Prints out.new result (limited text.now (outcome_of (normalize text.now 0 (length out.old) (length work.old)))) }
{
    if is_long(text) {
        return refuse_long(out);
    }
    let result = normalize_self_loop_runs(text, out, work);
    show(out, result.answer)
}

// As that of gfa_report: one for both would take what answers as a closure, and each is a program of its own.
fn main() {
    let mut text = [0u8; 2049];
    let mut out = [0u8; 16384];
    let mut work = [0u32; 8256];
    let size = io::read_full(0, &mut text);
    let shown = print_normalized(&text[..size], &mut out, &mut work);
    io::write_all(1, &out[..shown]);
}
