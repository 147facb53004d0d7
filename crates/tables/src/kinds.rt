// The kinds of paths: of P lines and of W lines.
ghost use Rattle.std.specs.Prelude.{◌≡◌, ◌≤◌};
ghost use Rattle.tables.specs.Paths.{kind_of, kind_in, kind_word, column_of};

#[derive(Clone, Copy, PartialEq, Eq)]
pub enum PathKind {
    P,
    W,
}

impl PathKind {
    // The kind that a word of the path table stands for.
    #[tactic(auto, using(crate::proofs::PathKinds::kind_p, crate::proofs::PathKinds::kind_w))]
    pub fn of(word: usize) -> PathKind
        ensures { kind_in result ≡ kind_of word }
    {
        if word == 0 { PathKind::P } else { PathKind::W }
    }

    // The word of the kind in the path table.
    pub fn word(self) -> usize
        ensures word { result ≡ kind_word self }
        ensures small { result ≤ 1 }
    {
        self as usize
    }

    // The field of its lines that holds the steps.
    #[tactic(auto, unfolding(crate::specs::Paths::column_of))]
    pub fn column(self) -> usize
        ensures { result ≡ column_of (kind_in self) }
    {
        match self {
            PathKind::P => 2,
            PathKind::W => 6,
        }
    }
}
