// The settings of a normalization (document 01, "Forms that change").
ghost use Rattle.std.specs.Prelude.{◌≡◌};

// The largest length of a sequence that may be folded; 0 is no cap (rule 1). A number and no Option, as in the Rust and for C.
#[derive(Clone, Copy)]
pub struct NormalizeSelfLoopsConfig {
    pub max_unit_len: usize,
}

impl NormalizeSelfLoopsConfig {
    // Cap 0: no cap, which is loosest.
    pub const NO_CAP: usize = 0;

    // The settings with this cap.
    pub fn new(max_unit_len: usize) -> Self
        ensures { result.max_unit_len ≡ max_unit_len }
    {
        Self { max_unit_len }
    }
}
