// The new IDs of rule 5, written, summed and compared: a name of a unit, a run length and a suffix, or a number.
ghost use Rattle.std.specs.Prelude.{◌≡◌};
ghost use Rattle.gfa_spec.specs.Bytes.{same};
ghost use Rattle.gfa_spec.specs.Decimal.{decimal};
ghost use Rattle.gfa_spec.specs.Sums.{name_sum};
ghost use Rattle.normalize_spec.specs.NewNames.{suffix as suffix_of, new_name, name_tail};
ghost use Rattle.writers.specs.Writers.{Puts};

use crate::sanitized::{is_sanitized, put_sanitized, sanitized_sum};
use scan::names::same_bytes;
use slots::sums::{START, sum_from};
use writers::numbers::put_decimal;
use writers::writer::Writer;

// Nothing for suffix 0, else `_` and the suffix.
fn put_suffix(w: &mut Writer, suffix: usize)
    ensures { Puts w.old (suffix_of suffix) w.new }
{
    if suffix != 0 {
        w.put_byte(b'_');
        put_decimal(w, suffix as u64);
    }
}

// What stands in a name behind the unit's.
fn put_tail(w: &mut Writer, count: usize, suffix: usize)
    ensures { Puts w.old (name_tail count suffix) w.new }
{
    w.put(b"_selfloop_run");
    put_decimal(w, count as u64);
    put_suffix(w, suffix);
}

// The name of a unit, a run length and a suffix.
pub fn put_new_name(w: &mut Writer, unit: &[u8], count: usize, suffix: usize)
    ensures { Puts w.old (new_name unit.now count suffix) w.new }
{
    put_sanitized(w, unit);
    put_tail(w, count, suffix);
}

// What stands in a name behind the unit's, written into a buffer. It has at most 54 bytes.
fn tail_in(buffer: &mut [u8; 64], count: usize, suffix: usize) -> &[u8]
    ensures { result.now ≡ name_tail count suffix }
{
    let mut w = Writer::new(&mut buffer[..], 64);
    put_tail(&mut w, count, suffix);
    let end = w.at;
    &buffer[..end]
}

// Is it what stands in a name behind the unit's?
fn is_tail(s: &[u8], count: usize, suffix: usize) -> bool
    ensures { result ≡ same (name_tail count suffix) s.now }
{
    let mut buffer = [0u8; 64];
    same_bytes(tail_in(&mut buffer, count, suffix), s)
}

// The sum of the name of a unit, a run length and a suffix (R-6).
pub fn new_name_sum(unit: &[u8], count: usize, suffix: usize) -> u32
    ensures { result ≡ name_sum (new_name unit.now count suffix) }
{
    let front = sanitized_sum(START, unit);
    let mut buffer = [0u8; 64];
    sum_from(front, tail_in(&mut buffer, count, suffix))
}

// Is the name that of the unit, a run length and a suffix? Such a name has at least 14 bytes more than the unit's.
#[tactic(auto, using(crate::proofs::Naming::comparing))]
pub fn is_new_name(unit: &[u8], count: usize, suffix: usize, name: &[u8]) -> bool
    ensures { result ≡ same (new_name unit.now count suffix) name.now }
{
    let size = unit.len();
    if name.len() < size + 14 {
        return false;
    }
    let (front, back) = name.split_at(size);
    is_sanitized(unit, front) && is_tail(back, count, suffix)
}

// Is the name this number in decimal? It has at most 20 digits.
pub fn is_decimal(name: &[u8], number: u64) -> bool
    ensures { result ≡ same (decimal number) name.now }
{
    let mut digits = [0u8; 20];
    let mut w = Writer::new(&mut digits, 20);
    put_decimal(&mut w, number);
    let end = w.at;
    same_bytes(&digits[..end], name)
}
