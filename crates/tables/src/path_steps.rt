// Consecutive steps, as those of a path are: from the first up to, not including, `end`.
ghost use Rattle.std.specs.Prelude.{◌≤◌};

#[derive(Clone, Copy)]
pub struct Steps {
    pub first: usize,
    pub end: usize,
    ghost ordered: { first ≤ end },
}
