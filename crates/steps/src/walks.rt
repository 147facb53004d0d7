// The steps of a W line, put into the step table.
ghost use Rattle.std.specs.Prelude.{◌≡◌, ◌+◌, ◌-◌, ◌*◌, ◌≤◌, length};
ghost use Rattle.std.specs.Iterator.{at_most};
ghost use Rattle.gfa_spec.specs.Bytes.{part};
ghost use Rattle.gfa_spec.specs.Reading.{is_mark, orientation_of, non_empty, walk, parse_wsteps};
ghost use Rattle.scan.specs.Orientations.{sign_of};
ghost use Rattle.scan.specs.Places.{Inside, part_at};
ghost use Rattle.steps.specs.StepFields.{MarkIs};
ghost use Rattle.steps.specs.FieldSteps.{PutsSteps};

use crate::step_field::StepField;
use refusals::reason::Reason;
use scan::names::is_star;
use scan::orientation::Orientation;
use scan::places::Place;
use tables::rows::{StepWords, put_step};

// Is the byte > or <?
#[tactic(auto, unfolding(gfa_spec::specs::Reading::is_mark))]
pub fn is_mark(b: u8) -> bool
    ensures { result ≡ is_mark b }
{
    b == b'>' || b == b'<'
}

// The orientation that a mark says.
#[tactic(auto, unfolding(gfa_spec::specs::Reading::orientation_of))]
pub fn orientation_at(mark: u8) -> Orientation
    ensures { sign_of result ≡ orientation_of mark }
{
    if mark == b'>' {
        Orientation::Forward
    } else {
        Orientation::Reverse
    }
}

// The first mark from `from` up to `to`, or `to`.
#[tactic(auto, using(crate::proofs::Marks::marking))]
pub fn find_mark(text: &[u8], from: usize, to: usize) -> usize
    requires { (from ≤ to) × (to ≤ length text.now) }
    ensures { MarkIs text.now from to result }
{
    for i in from..to {
        if is_mark(text[i]) {
            return i;
        }
    }
    to
}

// The steps of a walk, from place `at` of a text up to place `end`; what stands before the first mark is passed over.
#[derive(Drop)]
pub struct Walk<'a> {
    pub text: &'a [u8],
    pub at: usize,
    pub end: usize,
    ghost inside: { (at ≤ end) × (end ≤ length text.now) },
}

impl<'a> Walk<'a> {
    ghost use Rattle.steps.specs.WalkSteps.{AllSteps};

    // All of them.
    pub fn of(text: &'a [u8], field: Place) -> Walk<'a>
        requires { Inside text.now field }
        ensures { AllSteps text.now field result }
    {
        let at = field.start;
        let end = at + field.size;
        Walk { text, at, end }
    }
}

impl<'a> Iterator for Walk<'a> {
    ghost use Rattle.steps.specs.WalkSteps.{StepGiven};

    type Item = StepWords;

    ghost next_gives = { StepGiven };

    ghost remaining = { λ s. at_most (s.end - s.at) };

    #[tactic(auto, using(crate::proofs::Marks::no_step))]
    #[inline]
    fn next(&mut self) -> Option<StepWords> {
        let at = find_mark(self.text, self.at, self.end);
        if at == self.end {
            return None;
        }
        let start = at + 1;
        let stop = find_mark(self.text, start, self.end);
        self.at = stop;
        Some(StepWords {
            name: Place {
                start,
                size: stop - start,
            },
            mark: orientation_at(self.text[at]),
        })
    }
}

// Puts the steps of a walk into the table.
#[tactic(auto, using(crate::proofs::Walking::walking))]
pub fn read_walk(f: &mut StepField) -> Result<usize, Reason>
    ensures { PutsSteps f.old (non_empty (walk f.old.field.start (part f.old.field.start f.old.field.size f.old.text.now)).steps) result f.new }
{
    let end = f.field.start + f.field.size;
    // Counted by hand: the count is needed behind the loop, where the number that an `enumerate` gives is gone.
    let mut n = 0;
    for step in Walk::of(f.text, f.field) {
        if step.name.size == 0 {
            if step.name.start == end {
                return Err(Reason::EmptyLastStep);
            }
            return Err(Reason::EmptyStep);
        }
        put_step(f.work, f.base, n, step);
        n += 1;
    }
    if n == 0 {
        return Err(Reason::NoStep);
    }
    Ok(n)
}

// Puts the steps of a W line's field into the table.
#[tactic(auto, using(crate::proofs::StepFields::of_w))]
pub fn parse_w_steps(f: &mut StepField) -> Result<usize, Reason>
    ensures { PutsSteps f.old (parse_wsteps (part_at f.old.text.now f.old.field.start f.old.field.size)) result f.new }
{
    if is_star(f.field.of(f.text)) || f.field.size == 0 {
        return Ok(0);
    }
    read_walk(f)
}
