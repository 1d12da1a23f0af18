// Integers and types from their letters.
ghost use Rattle.std.specs.Prelude.{◌≡◌, true, ◌+◌, ◌-◌, ◌*◌, ◌^◌, ◌<◌};
ghost use Rattle.rules.specs.Bytes.{byte, digit};
ghost use Rattle.rules.specs.Integers.{number, below, fits as fits_width, unsigned, minus as minus_of, integer, type_width};
ghost use Rattle.wide.specs.Wide.{bits, as_read, as_field};

use crate::{MOST, WORD, Wide};

// A half that is below this has room for one more digit.
const TENTH: u64 = MOST / 10;

impl Wide {
    // The integer that a text spells: digits, or '-' and digits.
    pub fn from_digits(s: &[u8]) -> Option<Wide>
        ensures { as_read result ≡ integer s.now }
    {
        match s.strip_prefix(b"-") {
            Some(digits) => minus(digits),
            None => plain(s),
        }
    }

    // Ten times the bits and a digit, where that is below 2^128.
    fn shifted(self, d: u64) -> Option<Wide>
        requires { d < 10 }
        ensures { as_read result ≡ fits_width 128 (number (bits self * 10 + d)) }
    {
        if self.hi == 0 && self.lo < TENTH {
            return Some(Wide {
                hi: 0,
                lo: self.lo * 10 + d,
            });
        }
        let p = self.lo % WORD * 10 + d;
        let q = self.lo / WORD * 10 + p / WORD;
        let carry = q / WORD;
        if (MOST - carry) / 10 < self.hi {
            return None;
        }
        Some(Wide {
            hi: self.hi * 10 + carry,
            lo: q % WORD * WORD + p % WORD,
        })
    }
}

// The integer of '-' and digits.
fn minus(digits: &[u8]) -> Option<Wide>
    ensures { as_read result ≡ minus_of (below (2 ^ 127 + 1) (unsigned digits.now)) }
{
    let w = magnitude(digits)?;
    if Wide::MIN.under(w) {
        return None;
    }
    Some(w.negate())
}

// The integer of digits alone.
fn plain(digits: &[u8]) -> Option<Wide>
    ensures { as_read result ≡ below (2 ^ 127) (unsigned digits.now) }
{
    let w = magnitude(digits)?;
    if Wide::MAX.under(w) {
        return None;
    }
    Some(w)
}

// The width of the type that a text spells: 'i' and digits, from 1 to 65535.
pub fn type_width(s: &[u8]) -> Option<u32>
    ensures { as_field result ≡ type_width s.now }
{
    let digits = s.strip_prefix(b"i")?;
    let width = magnitude(digits)?.fits(0xffff);
    width.filter(|n| *n != 0)
}

// The number that digits spell, one or more, as bits.
fn magnitude(s: &[u8]) -> Option<Wide>
    ensures { as_read result ≡ fits_width 128 (unsigned s.now) }
{
    if s.is_empty() {
        return None;
    }
    let mut m = Wide { hi: 0, lo: 0 };
    for b in s {
        if !scan::is_digit(*b) {
            return None;
        }
        m = m.shifted(digit_of(*b))?;
    }
    Some(m)
}

// The number of a digit.
fn digit_of(b: u8) -> u64
    requires { digit b ≡ true }
    ensures { (result ≡ b - byte "0") × (result < 10) }
{
    (b - b'0') as u64
}
