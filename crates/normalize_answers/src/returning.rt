// Rule 3: where no segment is folded the text returns byte for byte. And what a call returns.
ghost use Rattle.std.specs.Prelude.{length};
ghost use Rattle.normalize_spec.specs.Services.{normal, normal_fitted};
ghost use Rattle.normalize_answers.specs.Counters.{counters};
ghost use Rattle.normalize_answers.specs.Answered.{NormalTold};

use crate::stats::{NormalizeSelfLoopsStats, no_stats};
use crate::written::Written;
use reader::answers::Answer;
use refusals::reason::Reason;
use refusals::refusal::Refusal;
use writers::placed::put_at;

// What a normalization returns: its answer, and its statistics, which are all 0 on a refusal.
#[repr(C)]
#[derive(Clone, Copy)]
pub struct NormalizeSelfLoopsResult {
    pub answer: Answer,
    pub stats: NormalizeSelfLoopsStats,
}

impl From<Result<Written, Refusal>> for NormalizeSelfLoopsResult {
    ghost use Rattle.normalize_answers.specs.Answered.{ReturnedIs};

    ghost from_gives = { λ o r. ReturnedIs o r };

    fn from(outcome: Result<Written, Refusal>) -> NormalizeSelfLoopsResult {
        match outcome {
            Ok(written) => NormalizeSelfLoopsResult {
                answer: Answer::from(Ok(written.length)),
                stats: written.stats,
            },
            Err(r) => NormalizeSelfLoopsResult {
                answer: Answer::from(Err(r)),
                stats: no_stats(),
            },
        }
    }
}

// The text as it is, with these statistics, where there is room for it.
pub fn return_text(
    text: &[u8],
    out: &mut [u8],
    stats: NormalizeSelfLoopsStats,
) -> Result<Written, Refusal>
    ensures { NormalTold out.old out.new result (normal_fitted (length out.old) (normal text.now (counters stats))) }
{
    if out.len() < text.len() {
        return Err(Refusal::of(Reason::ShortOutput));
    }
    put_at(out, 0, text.len(), text);
    Ok(Written {
        length: text.len(),
        stats,
    })
}
