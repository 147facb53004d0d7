// The reader of any text into any work area: refusals 1 to 4, then 5 to 17 in text order, or the tables.
ghost use Rattle.std.specs.Prelude.{◌+◌, ◌*◌, ◌≤◌, length};
ghost use Rattle.reader.specs.Inputs.{BadIs, AdmissionIs, TextIs, InputIs};

use crate::counting::count_text;
use crate::reading::read_lines;
use refusals::reason::Reason;
use refusals::refusal::Refusal;
use tables::segments::clear_names;
use tables::tables::{Bases, Counts, bases_of};

// The first byte that no text has, as its refusal: one of 128 or more, or a carriage return that is not followed at once by a line feed.
pub fn bad_byte(text: &[u8]) -> Option<Refusal>
    ensures { BadIs text.now result }
{
    for i in 0..text.len() {
        if 128 <= text[i] {
            return Some(Refusal::at_place(Reason::NoAscii, i));
        }
        if text[i] == b'\r' {
            if i + 1 == text.len() {
                return Some(Refusal::at_place(Reason::LoneReturn, i));
            }
            if text[i + 1] != b'\n' {
                return Some(Refusal::at_place(Reason::LoneReturn, i));
            }
        }
    }
    None
}

// May the lines of a text be read, in a work area of so many words? Refusals 1 to 4.
pub fn admit(text: &[u8], words: usize) -> Result<(), Refusal>
    ensures { AdmissionIs text.now words result }
{
    if 1048576 < text.len() {
        return Err(Refusal::of(Reason::LongText));
    }
    if let Some(r) = bad_byte(text) {
        return Err(r);
    }
    if words < 4 * text.len() + 64 {
        return Err(Refusal::of(Reason::ShortWork));
    }
    Ok(())
}

// Reads the lines of a text into tables, where they are and how many rows they have; refusals 5 to 17. The work area, which may be a part of a
// larger one, has four words for each byte and 28 more.
pub fn read_text(text: &[u8], work: &mut [u32]) -> Result<(Bases, Counts), Refusal>
    requires { (length text.now ≤ 1048576) × (4 * length text.now + 28 ≤ length work.old) }
    ensures { TextIs text.now work.old work.new result }
{
    let b = bases_of(count_text(text));
    clear_names(work, b);
    let n = read_lines(text, work, b)?;
    Ok((b, n))
}

// Reads a text into tables in the work area.
pub fn parse_gfa(text: &[u8], work: &mut [u32]) -> Result<(Bases, Counts), Refusal>
    ensures { InputIs text.now work.old work.new result }
{
    admit(text, work.len())?;
    read_text(text, work)
}
