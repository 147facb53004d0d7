// The reasons of refusals, in the order of their numbers (document 01, "Refused calls"). Number 20, a path whose spelling changed, never comes.
ghost use Rattle.std.specs.Prelude.{◌≡◌};
ghost use Rattle.refusals.specs.Reasons.{number_of};

#[derive(Clone, Copy, PartialEq, Eq)]
pub enum Reason {
    // The text is longer than 1,048,576 bytes.
    LongText,
    // A byte is 128 or more.
    NoAscii,
    // A carriage return is not followed at once by a line feed.
    LoneReturn,
    // The work area is shorter than four words a byte and 64.
    ShortWork,
    // An S line has fewer than three fields.
    ShortSegment,
    // A segment of this ID was read before.
    KnownSegment,
    // An L line has fewer than six fields.
    ShortLink,
    // The orientation that a link leaves with is empty, or is no single + or -.
    NoFromSign,
    BadFromSign,
    // The orientation that a link enters with is empty, or is no single + or -.
    NoToSign,
    BadToSign,
    // A P line has fewer than three fields.
    ShortPath,
    // A step of a P line has no + or - at its end, or no name before it.
    BadStep,
    // A W line has fewer than seven fields.
    ShortWalk,
    // A step of a walk has no name; the walk has no step; its last step has no name.
    EmptyStep,
    NoStep,
    EmptyLastStep,
    // A step names no segment, or one whose sequence is `*`.
    UnknownSegment,
    StarSegment,
    // There is no path of that number.
    NoPath,
    // The output buffer is shorter than the answer.
    ShortOutput,
}

impl Reason {
    // Its number.
    pub fn number(self) -> usize
        ensures { result ≡ number_of self }
    {
        match self {
            Reason::LongText => 1,
            Reason::NoAscii => 2,
            Reason::LoneReturn => 3,
            Reason::ShortWork => 4,
            Reason::ShortSegment => 5,
            Reason::KnownSegment => 6,
            Reason::ShortLink => 7,
            Reason::NoFromSign => 8,
            Reason::BadFromSign => 9,
            Reason::NoToSign => 10,
            Reason::BadToSign => 11,
            Reason::ShortPath => 12,
            Reason::BadStep => 13,
            Reason::ShortWalk => 14,
            Reason::EmptyStep => 15,
            Reason::NoStep => 16,
            Reason::EmptyLastStep => 17,
            Reason::UnknownSegment => 18,
            Reason::StarSegment => 19,
            Reason::NoPath => 21,
            Reason::ShortOutput => 22,
        }
    }
}
