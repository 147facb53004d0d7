// The service that reports (document 01, "The four services").
ghost use Rattle.std.specs.Prelude.{length};
ghost use Rattle.reader.specs.Served.{answer_in, Answered, Served};
ghost use Rattle.report_spec.specs.Services.{report_text};

use crate::summary::write_report;
use crate::totals::{rank_nodes, totals_of};
use reader::answers::Answer;
use reader::input::parse_gfa;
use refusals::refusal::Refusal;
use tables::graph::Graph;
use work::work::clear;

// The answer: refusals 1 to 17, then 22. The work area holds the tables.
#[tactic(auto, using(reader::proofs::Serving::input_readable))]
fn answer_report(
    text: &[u8],
    top: usize,
    out: &mut [u8],
    work: &mut [u32],
) -> Result<usize, Refusal>
    ensures { Answered out.old out.new (answer_in result) (report_text text.now top (length out.old) (length work.old)) }
{
    let (b, n) = parse_gfa(text, work)?;
    let graph = Graph { text, work, b, n };
    let t = totals_of(&graph);
    let m = rank_nodes(text, work, b, n);
    let ranked = Graph { text, work, b, n };
    write_report(out, &ranked, t, m, top)
}

// Reports on a text, with the first `top_n` nodes, into `out`. The work area is all zero afterwards.
#[tactic(auto, using(reader::proofs::Serving::served))]
pub fn diagnose_gfa_with_top_n(
    text: &[u8],
    top_n: usize,
    out: &mut [u8],
    work: &mut [u32],
) -> Answer
    ensures { Served out.old out.new (length work.old) work.new result
        (report_text text.now top_n (length out.old) (length work.old)) }
{
    let told = answer_report(text, top_n, out, work);
    clear(work);
    Answer::from(told)
}

// Reports with the first ten nodes.
pub fn diagnose_gfa(text: &[u8], out: &mut [u8], work: &mut [u32]) -> Answer
    ensures { Served out.old out.new (length work.old) work.new result
        (report_text text.now 10 (length out.old) (length work.old)) }
{
    diagnose_gfa_with_top_n(text, 10, out, work)
}
