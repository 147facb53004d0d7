// A case replayed: its call, and all that the call returns and leaves behind.
ghost use Rattle.std.specs.Prelude.{◌≡◌, length};
ghost use Rattle.cases.specs.Cases.{Tells};
ghost use Rattle.replay.specs.Left.{Left};

use crate::counters::counters;
use cases::agreement::agrees;
use cases::buffers::{fill_bytes, fill_words, words_left};
use cases::headers::{ARG, ROOM};
use cases::lists::Case;
use normalize::config::NormalizeSelfLoopsConfig;
use normalize::services::normalize_repeat_self_loops;
use normalize_answers::returning::NormalizeSelfLoopsResult;
use normalize_answers::stats::no_stats;
use reader::answers::Answer;
use report::services::diagnose_gfa_with_top_n;
use speller::services::spell_path;

// The word of a header that says how long the work area is.
const WORK: usize = 3;

// An answer without counters.
pub fn uncounted(answer: Answer) -> NormalizeSelfLoopsResult
    ensures { result.answer ≡ answer }
{
    NormalizeSelfLoopsResult {
        answer,
        stats: no_stats(),
    }
}

// Calls a service, named by the first letter of its word.
pub fn call(
    service: u8,
    text: &[u8],
    arg: usize,
    out: &mut [u8],
    work: &mut [u32],
) -> NormalizeSelfLoopsResult {
    match service {
        b'n' => normalize_repeat_self_loops(text, NormalizeSelfLoopsConfig::new(arg), out, work),
        b'r' => uncounted(diagnose_gfa_with_top_n(text, arg, out, work)),
        _ => uncounted(spell_path(text, arg, out, work)),
    }
}

// Are the answer and the counters of a call those of its case, and do its buffers hold the output, a cleared work area and nothing else
// that is new?
pub fn result_agrees(c: &Case<'_>, r: NormalizeSelfLoopsResult, out: &[u8], work: &[u32]) -> bool
    ensures { Tells (Left c.now.list.now c.now.parts c.now.row out.now work.now) result }
{
    let a = r.answer;
    let answer = [a.number, a.line, a.from, a.length];
    let more = counters(c.letter(), r.stats);
    agrees(c, &answer, &more, out) && words_left(work, c.row[WORK])
}

// Replays the call of a case in buffers that hold a pattern: is all as recorded?
pub fn case_agrees(c: &Case<'_>, out: &mut [u8], work: &mut [u32]) -> bool
    ensures { Tells (Left c.now.list.now c.now.parts c.now.row out.new work.new) result }
{
    let room = c.row[ROOM].min(out.len());
    let words = c.row[WORK].min(work.len());
    fill_bytes(out);
    fill_words(work);
    let r = call(
        c.letter(),
        c.text(),
        c.row[ARG],
        &mut out[..room],
        &mut work[..words],
    );
    result_agrees(c, r, out, work)
}
