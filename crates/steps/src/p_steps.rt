// The steps of a P line, put into the step table.
ghost use Rattle.std.specs.Prelude.{◌+◌, ◌*◌, ◌≤◌, length};
ghost use Rattle.gfa_spec.specs.Bytes.{split, part};
ghost use Rattle.gfa_spec.specs.Reading.{parse_items, parse_psteps};
ghost use Rattle.scan.specs.Places.{Inside, part_at};
ghost use Rattle.steps.specs.StepFields.{ItemIs};
ghost use Rattle.steps.specs.FieldSteps.{PutsSteps};

use crate::step_field::StepField;
use refusals::reason::Reason;
use scan::names::is_star;
use scan::orientation::Orientation;
use scan::places::Place;
use scan::split::Split;
use tables::rows::{StepWords, put_step};

// Puts an item into the table at `base`, behind its `n` steps; an empty item is skipped. Answers how many there are with it.
pub fn read_item(
    text: &[u8],
    work: &mut [u32],
    base: usize,
    n: usize,
    item: Place,
) -> Result<usize, Reason>
    requires inside { Inside text.now item }
    requires short { length text.now ≤ 1048576 }
    requires room { base + 3 * n + 3 ≤ length work.old }
    ensures { ItemIs text.now work.old work.new base n item result }
{
    if item.size == 0 {
        return Ok(n);
    }
    let size = item.size - 1;
    let Some(mark) = Orientation::of(text[item.start + size]) else {
        return Err(Reason::BadStep);
    };
    if size == 0 {
        return Err(Reason::BadStep);
    }
    let name = Place {
        start: item.start,
        size,
    };
    put_step(work, base, n, StepWords { name, mark });
    Ok(n + 1)
}

// Puts the steps of a field's items into the table.
#[tactic(auto, using(crate::proofs::Stepping::stepping))]
pub fn read_items(f: &mut StepField) -> Result<usize, Reason>
    ensures { PutsSteps f.old (parse_items (split 44 f.old.field.start (part f.old.field.start f.old.field.size f.old.text.now))) result f.new }
{
    let mut n = 0;
    for item in Split::of(f.text, b',', f.field) {
        n = read_item(f.text, f.work, f.base, n, item)?;
    }
    Ok(n)
}

// Puts the steps of a P line's field into the table.
#[tactic(auto, using(crate::proofs::StepFields::of_p))]
pub fn parse_p_steps(f: &mut StepField) -> Result<usize, Reason>
    ensures { PutsSteps f.old (parse_psteps (part_at f.old.text.now f.old.field.start f.old.field.size)) result f.new }
{
    if is_star(f.field.of(f.text)) {
        return Ok(0);
    }
    read_items(f)
}
