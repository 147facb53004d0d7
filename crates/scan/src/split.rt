// The parts of a place of a text between separators, one by one.
ghost use Rattle.std.specs.Prelude.{◌+◌, ◌-◌, ◌≤◌, length};
ghost use Rattle.std.specs.Iterator.{at_most};
ghost use Rattle.scan.specs.Places.{Inside};

use crate::places::{Place, find};

// The parts from place `at` of a text up to place `end`, between bytes `byte`; behind the last of them `at` is behind `end`.
#[derive(Drop)]
pub struct Split<'a> {
    pub text: &'a [u8],
    pub byte: u8,
    pub at: usize,
    pub end: usize,
    ghost inside: { (at ≤ end + 1) × (end ≤ length text.now) },
}

impl<'a> Split<'a> {
    ghost use Rattle.scan.specs.Parts.{AllParts};

    // All of them.
    #[tactic(auto, using(crate::proofs::Parts::giving))]
    pub fn of(text: &'a [u8], byte: u8, place: Place) -> Split<'a>
        requires { Inside text.now place }
        ensures { AllParts text.now byte place result }
    {
        let at = place.start;
        let end = at + place.size;
        Split {
            text,
            byte,
            at,
            end,
        }
    }
}

impl<'a> Iterator for Split<'a> {
    ghost use Rattle.scan.specs.Parts.{PartGiven};

    type Item = Place;

    ghost next_gives = { PartGiven };

    ghost remaining = { λ s. at_most (s.end + 1 - s.at) };

    #[tactic(auto, using(crate::proofs::Parts::giving))]
    #[inline]
    fn next(&mut self) -> Option<Place> {
        if self.end < self.at {
            return None;
        }
        let start = self.at;
        let stop = find(self.text, self.byte, start, self.end);
        self.at = stop + 1;
        Some(Place {
            start,
            size: stop - start,
        })
    }
}
