// Links added, counted.
ghost use Rattle.std.specs.Prelude.{◌≤◌};
ghost use Rattle.std.proofs.Props.{props};

// How many links are added, and how many of them have equal ends.
#[derive(Clone, Copy)]
pub struct Tally {
    pub added: usize,
    pub loops: usize,
    ghost few: { loops ≤ added } by { Prim.hlevel props },
}
