// Prints the report on standard input, which has at most 2,048 bytes, with ten nodes; or the lines of a refusal.
#![tactic(auto)]

ghost use Rattle.std.specs.Prelude.{length};
ghost use Rattle.report_spec.specs.Services.{report_text};
ghost use Rattle.console.specs.Printed.{limited, Prints};

use console::{is_long, refuse_long, show};
use report::services::diagnose_gfa;

// Puts what is to be printed at the front of `out`, and answers how many bytes that is.
fn print_report(text: &[u8], out: &mut [u8], work: &mut [u32]) -> usize
    ensures { Prints out.new result (limited text.now (report_text text.now 10 (length out.old) (length work.old))) }
{
    if is_long(text) {
        return refuse_long(out);
    }
    let answer = diagnose_gfa(text, out, work);
    show(out, answer)
}

fn main() {
    let mut text = [0u8; 2049];
    let mut out = [0u8; 16384];
    let mut work = [0u32; 8256];
    let size = io::read_full(0, &mut text);
    let shown = print_report(&text[..size], &mut out, &mut work);
    io::write_all(1, &out[..shown]);
}
