// The rows of a slot, from the last one back (R-6).
ghost use Rattle.std.proofs.Props.{props};
ghost use Rattle.work.specs.Rows.{word_of};
ghost use Rattle.slots.specs.Slots.{Backward, Begins};

use crate::slots::Slots;
use work::work::number_at;

// The rows of a slot that are left, by their numbers, from the last of them back.
#[derive(Drop)]
pub struct SlotRows<'a> {
    work: &'a [u32],
    slots: Slots,
    last: Option<usize>,
    ghost backward: { Backward work.now slots (word_of last) } by { Prim.hlevel props },
}

impl<'a> SlotRows<'a> {
    ghost use Rattle.slots.specs.RowsLeft.{RowsOf};
    ghost use Rattle.slots.specs.Slots.{head_at};

    // All rows of a slot.
    pub fn of(work: &'a [u32], slots: Slots, slot: usize) -> SlotRows<'a>
        requires { Begins work.now slots slot }
        ensures { RowsOf work.now slots (head_at work.now slots slot) result }
    {
        let last = number_at(work, slots.heads + slot);
        SlotRows { work, slots, last }
    }
}

impl<'a> Iterator for SlotRows<'a> {
    ghost use Rattle.std.specs.Iterator.{at_most};
    ghost use Rattle.slots.specs.RowsLeft.{RowsGiven};

    type Item = usize;

    ghost next_gives = { RowsGiven };

    ghost remaining = { λ s. at_most (word_of s.last) };

    #[inline]
    fn next(&mut self) -> Option<usize> {
        let k = self.last?;
        self.last = number_at(self.work, self.slots.nexts + self.slots.stride * k);
        Some(k)
    }
}
