// The sum of a name (R-6): it starts at 5381, becomes 33 times itself plus the next byte, and runs over at 32 bits. A sum goes on from a sum, so
// that a name made of pieces is summed piece by piece.
ghost use Rattle.std.specs.Prelude.{◌≡◌, ◌<◌, ◌*◌, ◌%◌};
ghost use Rattle.gfa_spec.specs.Sums.{stepped, sum_from, name_sum};
ghost use Rattle.slots.specs.Slots.{SlotIs};

// What the sum of a name starts at.
pub const START: u32 = 5381;

// 33 times a word, modulo 2^32.
fn times_33(h: u32) -> u32
    ensures { result ≡ 33 * h % 4294967296 }
{
    h.wrapping_mul(33)
}

// The sum with one byte more.
pub fn stepped(h: u32, b: u8) -> u32
    ensures { result ≡ stepped h b }
{
    times_33(h).wrapping_add(b as u32)
}

// The sum with all bytes of a string more.
pub fn sum_from(h: u32, s: &[u8]) -> u32
    ensures { result ≡ sum_from h s.now }
{
    let mut sum = h;
    for b in s {
        sum = stepped(sum, *b);
    }
    sum
}

// The sum of a name.
#[tactic(auto, unfolding(gfa_spec::specs::Sums::name_sum))]
pub fn name_sum(s: &[u8]) -> u32
    ensures { result ≡ name_sum s.now }
{
    sum_from(START, s)
}

// The slot of a sum, of `count`.
pub fn slot_of(sum: u32, count: usize) -> usize
    requires { 0 < count }
    ensures { SlotIs sum count result }
{
    sum as usize % count
}
