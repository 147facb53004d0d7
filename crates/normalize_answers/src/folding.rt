// A text of which some segment is folded: bad steps first, then rules 4 to 7.
ghost use Rattle.tables.specs.Entries.{entries_at};
ghost use Rattle.normalize_answers.specs.Folding.{Marks, FoldsText};
ghost use Rattle.normalize_answers.specs.Tied.{Tied};

use crate::rewriting::rewrite_text;
use crate::stats::NormalizeSelfLoopsStats;
use crate::written::Written;
use normalize_tables::normalizer::Normalizer;
use refusals::refusal::Refusal;
use spelling::spelling::bad_step;
use targets::folded::mark_folded;

// Folds the text whose eligible segments are marked; `stats` are its counters, were it returned as it is.
pub fn fold_text(
    tables: &mut Normalizer,
    stats: NormalizeSelfLoopsStats,
    out: &mut [u8],
) -> Result<Written, Refusal>
    requires tied { Tied (entries_at tables.old.text.now tables.old.work.now tables.old.b tables.old.n.lines) tables.old.text.now tables.old.work.now tables.old.b tables.old.n }
    requires marks { Marks tables.old.text.now tables.old.work.now tables.old.b tables.old.n tables.old.g.eligible }
    ensures { FoldsText tables.old stats out.old out.new result tables.new }
{
    bad_step(&tables.graph())?;
    let nodes = mark_folded(tables);
    rewrite_text(tables, nodes, stats, out)
}
