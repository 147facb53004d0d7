// Decimal numbers, read.
ghost use Rattle.std.specs.Prelude.{◌≡◌};
ghost use Rattle.gfa_spec.specs.Decimal.{number_of};
ghost use Rattle.scan.specs.Numbers.{numeral};

// The value of bytes that are all digits and at least one, if it is within 64 bits.
#[tactic(auto, using(crate::proofs::Numerals::reading))]
fn value_of(digits: &[u8]) -> Option<u64>
    ensures { result ≡ numeral digits.now }
{
    if digits.is_empty() {
        return None;
    }
    let mut value: u64 = 0;
    for b in digits {
        if *b < b'0' || b'9' < *b {
            return None;
        }
        let digit = u64::from(*b - b'0');
        value = value.checked_mul(10)?.checked_add(digit)?;
    }
    Some(value)
}

// The number that a string reads as: one leading + is passed over.
#[tactic(auto, using(crate::proofs::Numerals::number_signed, crate::proofs::Numerals::number_plain))]
pub fn number_of(s: &[u8]) -> Option<u64>
    ensures { result ≡ number_of s.now }
{
    if s.starts_with(b"+") {
        value_of(&s[1..])
    } else {
        value_of(s)
    }
}
