// Slots in the work area, whatever their rows are (R-6): a word for each slot, the last row in it, and a word for each row, the last row before it
// in its slot. The tables lie in a lent work area, and a map would want a heap.
ghost use Rattle.slots.specs.Slots.{SlotsCleared, Addable, RowAdded};
ghost use Rattle.std.specs.Prelude.{◌+◌, ◌≤◌, length};

use work::work::clear_words;

// Where the words of slots stand, and how many there are; where the word of the first row stands, and how far from it that of the next.
#[derive(Clone, Copy)]
pub struct Slots {
    pub heads: usize,
    pub count: usize,
    pub nexts: usize,
    pub stride: usize,
}

impl Slots {
    // Empties the slots, whatever the work area held.
    pub fn clear(self, work: &mut [u32])
        requires { self.heads + self.count ≤ length work.old }
        ensures { SlotsCleared work.old work.new self }
    {
        clear_words(work, self.heads, self.count);
    }

    // Puts row `k`, whose number is behind those that have slots, into a slot, before the others there.
    pub fn add(self, work: &mut [u32], slot: usize, k: usize)
        requires { Addable work.old self slot k }
        ensures { RowAdded work.old work.new self slot k }
    {
        let head = self.heads + slot;
        let next = self.nexts + self.stride * k;
        work[next] = work[head];
        work[head] = (k + 1) as u32;
    }
}
