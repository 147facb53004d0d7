// P and W lines: checked, and put into the path table.
ghost use Rattle.std.specs.Prelude.{◌≡◌};
ghost use Rattle.lines.specs.declared.sort.Sort.TheVariants as Sort;
ghost use Rattle.lines.specs.NewLines.{IsOf, AddsSteps, AddsRecord};
ghost use Rattle.refusals.specs.Reasons.{number_of};
ghost use Rattle.tables.specs.Paths.{kind_in, short_of};

use crate::new_line::NewLine;
use refusals::reason::Reason;
use scan::places::field_at;
use steps::fields::parse_steps;
use steps::step_field::StepField;
use tables::entry::{PathNo, Record};
use tables::kinds::PathKind;
use tables::path_steps::Steps;
use tables::rows::{PathWords, put_path, step_place};
use tables::tables::{Counts, one_more};

// The refusal of a line of the kind with too few fields.
#[tactic(auto, unfolding(tables::specs::Paths::short_of))]
pub fn short_of(kind: PathKind) -> Reason
    ensures { number_of result ≡ short_of (kind_in kind) }
{
    match kind {
        PathKind::P => Reason::ShortPath,
        PathKind::W => Reason::ShortWalk,
    }
}

// Puts the steps of a P or W line behind those of the step table; answers how many there are.
pub fn path_steps(l: &mut NewLine, kind: PathKind) -> Result<usize, Reason>
    requires { IsOf l.old (Sort.Path kind) }
    ensures { AddsSteps l.old kind result l.new }
{
    let Some(field) = field_at(l.text, l.line, kind.column()) else {
        return Err(short_of(kind));
    };
    let NewLine { text, b, n, .. } = *l;
    let work = &mut *l.work;
    let base = step_place(b, n.steps);
    let mut f = StepField {
        text,
        work,
        base,
        field,
    };
    parse_steps(&mut f, kind)
}

// Adds a P or W line: its record, and how many rows there are with it.
pub fn add_path(l: &mut NewLine, kind: PathKind) -> Result<(Record, Counts), Reason>
    requires { IsOf l.old (Sort.Path kind) }
    ensures { AddsRecord l.old result l.new }
{
    let count = path_steps(l, kind)?;
    let p = PathNo(l.n.paths as u32);
    let row = PathWords {
        kind,
        line: l.line,
        steps: Steps {
            first: l.n.steps,
            end: l.n.steps + count,
        },
    };
    put_path(l.work, l.b, p, row);
    Ok((Record::Path(p), one_more(l.n, 0, 0, 1, count)))
}
