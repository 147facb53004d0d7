// The service that normalizes (document 01, "The four services" and "Folding").
//
// Where demand 3 stands: `Normalized` (specs/Served) is the contract of both functions. Its part `kept` says of the bytes now at the front of
// `out`, read again at any length, that every path spells what it spelled (`spells`), has lost exactly the steps of its folded runs (`lost`),
// and that this is its fall in adjacent equal steps (`fallen`). Looser caps fold at least as much: `calls-monotone` (proofs/Demand) says so
// of any two calls that meet this contract.
ghost use Rattle.std.specs.Prelude.{length};
ghost use Rattle.gfa_spec.specs.Calls.{entries};
ghost use Rattle.normalize_spec.specs.Services.{normal_fitted, normalize_entries, normalize};
ghost use Rattle.tables.specs.Entries.{entries_at};
ghost use Rattle.normalize_answers.specs.Answered.{NormalTold};
ghost use Rattle.normalize.specs.Served.{Normalized};
ghost use Rattle.normalize.specs.Loaded.{Loaded, Decided};

use crate::config::NormalizeSelfLoopsConfig;
use normalize_answers::folding::fold_text;
use normalize_answers::returning::{NormalizeSelfLoopsResult, return_text};
use normalize_answers::stats::{NormalizeSelfLoopsStats, input_stats};
use normalize_answers::written::Written;
use normalize_tables::layout::{Layout, layout_of};
use normalize_tables::normalizer::Normalizer;
use reader::input::parse_gfa;
use refusals::refusal::Refusal;
use tables::graph::Graph;
use tables::tables::{Bases, Counts};
use targets::eligible::mark_eligible;
use targets::folded::any_folded;
use work::work::clear;

// What is known once rules 1 and 2 were tried: the counters of the text as it is, and, where some segment is folded, where the tables of folding are.
#[derive(Clone, Copy)]
pub struct Decision {
    pub stats: NormalizeSelfLoopsStats,
    pub folds: Option<Layout>,
}

// Marks the eligible segments, and tells whether any segment is folded.
fn decide(text: &[u8], cap: usize, work: &mut [u32], b: Bases, n: Counts) -> Decision
    requires { Loaded text.now work.old b n }
    ensures { Decided text.now cap work.old work.new b n result }
{
    let graph = Graph { text, work, b, n };
    let stats = input_stats(&graph);
    let g = layout_of(work, b, n);
    let mut tables = Normalizer {
        text,
        work,
        b,
        n,
        g,
    };
    mark_eligible(&mut tables, cap);
    let folds = any_folded(&tables).then_some(g);
    Decision { stats, folds }
}

// The answer to the tables of a text: the text as it is where no segment is folded, else what folding gives.
fn answer_tables(
    text: &[u8],
    cap: usize,
    out: &mut [u8],
    work: &mut [u32],
    b: Bases,
    n: Counts,
) -> Result<Written, Refusal>
    requires { Loaded text.now work.old b n }
    ensures { NormalTold out.old out.new result
        (normal_fitted (length out.old) (normalize_entries text.now cap (entries (entries_at text.now work.old b n.lines)))) }
{
    let d = decide(text, cap, work, b, n);
    match d.folds {
        Some(g) => {
            let mut tables = Normalizer {
                text,
                work,
                b,
                n,
                g,
            };
            fold_text(&mut tables, d.stats, out)
        }
        None => return_text(text, out, d.stats),
    }
}

// The answer: refusals 1 to 17, then 18 and 19, then 22. The work area holds the tables.
fn answer_normalize(
    text: &[u8],
    cap: usize,
    out: &mut [u8],
    work: &mut [u32],
) -> Result<Written, Refusal>
    ensures { NormalTold out.old out.new result (normalize text.now cap (length out.old) (length work.old)) }
{
    let (b, n) = parse_gfa(text, work)?;
    answer_tables(text, cap, out, work, b, n)
}

// Folds runs of equal steps on self-looped segments into `out`. The work area is all zero afterwards.
pub fn normalize_repeat_self_loops(
    text: &[u8],
    config: NormalizeSelfLoopsConfig,
    out: &mut [u8],
    work: &mut [u32],
) -> NormalizeSelfLoopsResult
    ensures { Normalized text.now config.max_unit_len out.old out.new (length work.old) work.new result }
{
    let told = answer_normalize(text, config.max_unit_len, out, work);
    clear(work);
    NormalizeSelfLoopsResult::from(told)
}

// The same with no cap.
pub fn normalize_self_loop_runs(
    text: &[u8],
    out: &mut [u8],
    work: &mut [u32],
) -> NormalizeSelfLoopsResult
    ensures { Normalized text.now 0 out.old out.new (length work.old) work.new result }
{
    normalize_repeat_self_loops(
        text,
        NormalizeSelfLoopsConfig::new(NormalizeSelfLoopsConfig::NO_CAP),
        out,
        work,
    )
}
