// The services for C and Rust: include/yeshqoram.h declares them. A slice is passed as the address of its first element and its length.
#![tactic(auto)]

ghost use Rattle.std.specs.Prelude.{length};
ghost use Rattle.gfa_spec.specs.Services.{spell_path};
ghost use Rattle.report_spec.specs.Services.{report_text};
ghost use Rattle.reader.specs.Served.{Served};
ghost use Rattle.normalize.specs.Served.{Normalized};

use normalize::config::NormalizeSelfLoopsConfig;
use normalize::services::normalize_repeat_self_loops;
use normalize_answers::returning::NormalizeSelfLoopsResult;
use reader::answers::Answer;
use report::services::diagnose_gfa_with_top_n;
use speller::services::spell_path;

// Spells path `k`, counted from 0.
#[unsafe(no_mangle)]
pub extern "C" fn yeshqoram_spell_path(
    text: &[u8],
    k: usize,
    out: &mut [u8],
    work: &mut [u32],
) -> Answer
    ensures { Served out.old out.new (length work.old) work.new result
        (spell_path text.now k (length out.old) (length work.old)) }
{
    spell_path(text, k, out, work)
}

// Reports, with the first `top_n` nodes.
#[unsafe(no_mangle)]
pub extern "C" fn yeshqoram_report(
    text: &[u8],
    top_n: usize,
    out: &mut [u8],
    work: &mut [u32],
) -> Answer
    ensures { Served out.old out.new (length work.old) work.new result
        (report_text text.now top_n (length out.old) (length work.old)) }
{
    diagnose_gfa_with_top_n(text, top_n, out, work)
}

// Folds runs on self-looped segments of at most `cap` bytes; cap 0 is no cap.
#[unsafe(no_mangle)]
pub extern "C" fn yeshqoram_normalize(
    text: &[u8],
    cap: usize,
    out: &mut [u8],
    work: &mut [u32],
) -> NormalizeSelfLoopsResult
    ensures { Normalized text.now cap out.old out.new (length work.old) work.new result }
{
    normalize_repeat_self_loops(text, NormalizeSelfLoopsConfig::new(cap), out, work)
}
