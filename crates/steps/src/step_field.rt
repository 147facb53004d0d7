// A field that holds steps.
ghost use Rattle.std.specs.Prelude.{◌+◌, ◌*◌, ◌≤◌, length};
ghost use Rattle.scan.specs.Places.{Inside};

use scan::places::Place;

// A field whose steps are put into the step table, from the word `base` on, which has room for a step for each byte of the field.
#[derive(Drop)]
pub struct StepField<'a, 'b> {
    pub text: &'a [u8],
    pub work: &'b mut [u32],
    pub base: usize,
    pub field: Place,
    ghost inside: { Inside text.now field },
    ghost short: { length text.now ≤ 1048576 },
    ghost room: { base + 3 * field.size + 3 ≤ length work.now },
}
