// Segments by their IDs: one more, and the search for one by slots (R-6), in as much of the segment table as there is.
ghost use Rattle.std.specs.Prelude.{◌+◌, ◌*◌, ◌≤◌, ◌<◌, ◌≡◌, length};
ghost use Rattle.scan.specs.Places.{Inside, bytes_in};
ghost use Rattle.slots.specs.Slots.{Begins};
ghost use Rattle.work.specs.Rows.{EachRow};
ghost use Rattle.tables.specs.ByNumber.{place_at, FoundIs};
ghost use Rattle.gfa_spec.specs.Bytes.{same};
ghost use Rattle.tables.specs.Names.{slots_of, slot_of, id_no, InSlot, NamesSlotted, NamesCleared, Insertable, Inserted};
ghost use Rattle.tables.specs.Segments.{SegmentRow};

use crate::entry::SegmentNo;
use crate::rows::{SegmentWords, put_segment};
use crate::tables::{Bases, SEGMENT};
use scan::names::same_name;
use scan::places::Place;
use slots::slots::Slots;
use slots::sums::{name_sum, slot_of};
use slots::walks::SlotRows;
use work::work::word;

// The part of the text whose start and length are the words from `at` on.
pub fn place_at(work: &[u32], at: usize) -> Place
    requires { at + 2 ≤ length work.now }
    ensures { result ≡ place_at work.now at }
{
    Place {
        start: word(work, at),
        size: word(work, at + 1),
    }
}

// The slots of IDs: a segment's own word is the last of its row.
pub fn slots_of(b: Bases) -> Slots
    requires { (b.segs + 6 ≤ b.heads) × (b.heads < b.links) }
    ensures { result ≡ slots_of b }
{
    Slots {
        heads: b.heads,
        count: b.links - b.heads,
        nexts: b.segs + 6,
        stride: SEGMENT,
    }
}

// Empties the slots, whatever the work area held.
pub fn clear_names(work: &mut [u32], b: Bases)
    requires { (b.segs + 6 ≤ b.heads) × (b.heads < b.links) × (b.links ≤ length work.old) }
    ensures { NamesCleared work.old work.new b }
{
    slots_of(b).clear(work);
}

// Puts segment `i`, whose ID no segment before it has: its row, and into the slot of its ID.
pub fn insert_segment(text: &[u8], work: &mut [u32], b: Bases, i: SegmentNo, s: SegmentWords)
    requires { Insertable text.now work.old b i.0 s }
    ensures { Inserted text.now work.old work.new b i.0 s }
{
    put_segment(work, b, i, s);
    let slots = slots_of(b);
    let slot = slot_of(name_sum(s.id.of(text)), slots.count);
    slots.add(work, slot, i.0 as usize);
}

// The segments in the slot of a sum, from the last one back.
pub fn in_slot(work: &[u32], b: Bases, sum: u32) -> SlotRows<'_>
    requires room { (b.segs + 6 ≤ b.heads) × (b.heads < b.links) }
    requires begins { Begins work.now (slots_of b) (slot_of b sum) }
    ensures { InSlot work.now b sum result }
{
    let slots = slots_of(b);
    let slot = slot_of(sum, slots.count);
    SlotRows::of(work, slots, slot)
}

// Does segment `k` have the name?
fn has_name(text: &[u8], work: &[u32], b: Bases, k: usize, name: Place) -> bool
    requires inside { Inside text.now name }
    requires row { (b.segs + 7 * k + 7 ≤ length work.now) × SegmentRow text.now work.now (b.segs + 7 * k) }
    ensures { result ≡ same (id_no text.now work.now b k) (bytes_in text.now name) }
{
    let id = place_at(work, b.segs + SEGMENT * k + 2);
    same_name(text, id, name)
}

// The segment that has the name, of the first `count`, which are those in the slots: the number is for the contract alone.
pub fn find_segment(
    text: &[u8],
    work: &[u32],
    b: Bases,
    count: usize,
    name: Place,
) -> Option<SegmentNo>
    requires inside { Inside text.now name }
    requires room { (b.segs + 7 * count + 7 ≤ b.heads) × (b.heads < b.links) × (b.links ≤ length work.now) × (count ≤ 2097152) }
    requires each_row { EachRow (SegmentRow text.now) 7 work.now b.segs count }
    requires names { NamesSlotted text.now work.now b count }
    ensures { FoundIs text.now work.now b count name result }
{
    for k in in_slot(work, b, name_sum(name.of(text))) {
        if has_name(text, work, b, k, name) {
            return Some(SegmentNo(k as u32));
        }
    }
    None
}
