// What every call answers (document 01, "Refused calls").
use refusals::refusal::Refusal;

// Number 0 is acceptance, its length the bytes written; a field not named is 0. Numbers, since C reads them.
#[repr(C)]
#[derive(Clone, Copy)]
pub struct Answer {
    pub number: usize,
    pub line: usize,
    pub from: usize,
    pub length: usize,
}

// The answer of a call that wrote so many bytes, or was refused.
impl From<Result<usize, Refusal>> for Answer {
    ghost use Rattle.std.specs.Prelude.{◌≡◌};
    ghost use Rattle.reader.specs.Served.{answer_in};

    ghost from_gives = { λ o r. r ≡ answer_in o };

    fn from(outcome: Result<usize, Refusal>) -> Answer {
        match outcome {
            Ok(length) => Answer {
                number: 0,
                line: 0,
                from: 0,
                length,
            },
            Err(r) => Answer {
                number: r.reason.number(),
                line: r.line,
                from: r.from,
                length: r.length,
            },
        }
    }
}
