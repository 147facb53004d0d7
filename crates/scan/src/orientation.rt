// The orientation of a step or of a link's end, by the sign that a text has for it: + or -.
ghost use Rattle.std.specs.Prelude.{◌≡◌};
ghost use Rattle.scan.specs.Orientations.{sign_of, OrientationIs};

#[derive(Clone, Copy, PartialEq, Eq)]
pub enum Orientation {
    Forward,
    Reverse,
}

impl Orientation {
    // The orientation of a sign; any other byte has none.
    #[tactic(auto, using(crate::proofs::Orientations::no_sign))]
    pub fn of(sign: u8) -> Option<Orientation>
        ensures { OrientationIs sign result }
    {
        match sign {
            b'+' => Some(Orientation::Forward),
            b'-' => Some(Orientation::Reverse),
            _ => None,
        }
    }

    // Its sign.
    pub fn sign(self) -> u8
        ensures { result ≡ sign_of self }
    {
        match self {
            Orientation::Forward => b'+',
            Orientation::Reverse => b'-',
        }
    }
}
