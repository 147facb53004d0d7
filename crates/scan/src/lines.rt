// The lines of a text, one by one.
ghost use Rattle.std.specs.Prelude.{◌≡◌, ◌≤◌, length};
ghost use Rattle.std.specs.Iterator.{item_count};
ghost use Rattle.gfa_spec.specs.Reading.{lines};

use crate::places::{Place, next_line};

// The lines of a text from place `at` on.
#[derive(Drop)]
pub struct Lines<'a> {
    pub text: &'a [u8],
    pub at: usize,
    ghost inside: { at ≤ length text.now },
}

impl<'a> Lines<'a> {
    ghost use Rattle.scan.specs.TextLines.{lines_left};

    // All of them.
    #[tactic(auto, using(crate::proofs::LineEnds::all_lines))]
    pub fn of(text: &'a [u8]) -> Lines<'a>
        ensures same { result.text.now ≡ text.now }
        ensures left { lines_left result ≡ lines text.now }
    {
        Lines { text, at: 0 }
    }
}

impl<'a> Iterator for Lines<'a> {
    ghost use Rattle.scan.specs.TextLines.{lines_left, LineGiven};

    type Item = Place;

    ghost next_gives = { LineGiven };

    ghost remaining = { item_count lines_left };

    #[tactic(auto, using(crate::proofs::LineEnds::no_line))]
    #[inline]
    fn next(&mut self) -> Option<Place> {
        if self.at == self.text.len() {
            return None;
        }
        let line = next_line(self.text, self.at);
        self.at = line.next;
        Some(line.place)
    }
}
