// Pieces of lines that both the rewritten text and the report are made of.
ghost use Rattle.std.specs.Prelude.{◌∷◌, ◌++◌, map};
ghost use Rattle.gfa_spec.specs.Bytes.{end_line, ended};
ghost use Rattle.gfa_spec.specs.Decimal.{decimal};
ghost use Rattle.writers.specs.Pieces.{lent_line};
ghost use Rattle.writers.specs.Writers.{Puts};

use crate::numbers::put_decimal;
use crate::writer::Writer;

// A string as a line, ended by a line feed.
pub fn put_line(w: &mut Writer, s: &[u8])
    ensures { Puts w.old (end_line s.now) w.new }
{
    w.put(s);
    w.put_byte(b'\n');
}

// A line of a report: a name, `=`, and a string.
pub fn put_value_line(w: &mut Writer, name: &[u8], value: &[u8])
    ensures { Puts w.old (end_line (name.now ++ (61 ∷ value.now))) w.new }
{
    w.put(name);
    w.put_byte(b'=');
    put_line(w, value);
}

// A line of a report: a name, `=`, and a number.
pub fn put_number_line(w: &mut Writer, name: &[u8], n: u64)
    ensures { Puts w.old (end_line (name.now ++ (61 ∷ decimal n))) w.new }
{
    w.put(name);
    w.put_byte(b'=');
    put_decimal(w, n);
    w.put_byte(b'\n');
}

// A line of a report for each name and its number.
pub fn put_number_lines(w: &mut Writer, lines: &[(&[u8], u64)])
    ensures { Puts w.old (ended (map lent_line lines.now)) w.new }
{
    for (name, n) in lines {
        put_number_line(w, name, *n);
    }
}
