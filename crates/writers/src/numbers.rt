// Decimal numbers, written.
ghost use Rattle.std.specs.Prelude.{◌≡◌, ◌+◌, ◌<◌};
ghost use Rattle.gfa_spec.specs.Decimal.{decimal};
ghost use Rattle.writers.specs.Writers.{Puts};

use crate::writer::Writer;

// The byte of a digit.
fn digit(n: u64) -> u8
    requires { n < 10 }
    ensures { result ≡ 48 + n }
{
    b'0' + n as u8
}

// A number in decimal: the digits before the last, and the last. By `write!` it would be proved only where that answers Ok, and that it does
// is proved of no writer.
pub fn put_decimal(w: &mut Writer, n: u64)
    ensures { Puts w.old (decimal n) w.new }
{
    if n < 10 {
        w.put_byte(digit(n));
    } else {
        put_decimal(w, n / 10);
        w.put_byte(digit(n % 10));
    }
}
