// The steps of a path, by its kind.
ghost use Rattle.scan.specs.Places.{part_at};
ghost use Rattle.tables.specs.Paths.{kind_in, steps_of};
ghost use Rattle.steps.specs.FieldSteps.{PutsSteps};

use crate::p_steps::parse_p_steps;
use crate::step_field::StepField;
use crate::walks::parse_w_steps;
use refusals::reason::Reason;
use tables::kinds::PathKind;

// Puts the steps of a field into the table, by the kind of its path; answers how many there are.
#[tactic(auto, using(crate::proofs::StepFields::by_kind))]
pub fn parse_steps(f: &mut StepField, kind: PathKind) -> Result<usize, Reason>
    ensures { PutsSteps f.old (steps_of (kind_in kind) (part_at f.old.text.now f.old.field.start f.old.field.size)) result f.new }
{
    match kind {
        PathKind::P => parse_p_steps(f),
        PathKind::W => parse_w_steps(f),
    }
}
