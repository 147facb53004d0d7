// A refusal: its reason, and its line or its place in the text, where it has one; a field not named is 0.
ghost use Rattle.std.specs.Prelude.{◌≡◌};
ghost use Rattle.gfa_spec.specs.Calls.{plainly, on_line, at_place};
ghost use Rattle.refusals.specs.Reasons.{number_of};
ghost use Rattle.refusals.specs.Refusals.{stated};

use crate::reason::Reason;

#[derive(Clone, Copy)]
pub struct Refusal {
    pub reason: Reason,
    pub line: usize,
    pub from: usize,
    pub length: usize,
}

impl Refusal {
    // One that names no line and no place.
    #[tactic(auto, unfolding(gfa_spec::specs::Calls::plainly))]
    pub fn of(reason: Reason) -> Refusal
        ensures { stated result ≡ plainly (number_of reason) }
    {
        Refusal {
            reason,
            line: 0,
            from: 0,
            length: 0,
        }
    }

    // One of a line, the first being 1.
    #[tactic(auto, unfolding(gfa_spec::specs::Calls::on_line))]
    pub fn on_line(reason: Reason, line: usize) -> Refusal
        ensures { stated result ≡ on_line (number_of reason) line }
    {
        Refusal {
            reason,
            line,
            from: 0,
            length: 0,
        }
    }

    // One of a byte, by its place.
    #[tactic(auto, unfolding(gfa_spec::specs::Calls::at_place))]
    pub fn at_place(reason: Reason, from: usize) -> Refusal
        ensures { stated result ≡ at_place (number_of reason) from }
    {
        Refusal {
            reason,
            line: 0,
            from,
            length: 0,
        }
    }
}
