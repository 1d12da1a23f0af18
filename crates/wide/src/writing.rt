// Integers in decimal.
ghost use Rattle.std.specs.Prelude.{◌≡◌, ◌++◌, ◌/◌, ◌%◌, ◌≤◌, ◌<◌, ltb, length, drop};
ghost use Rattle.rules.specs.Integers.{digits, decimal};
ghost use Rattle.wide.specs.Wide.{bits};
ghost use Rattle.rules.specs.Out.{Wrote};

use crate::{WORD, Wide};

// All digits but the last, as bits, and the last.
#[derive(Clone, Copy)]
struct Divided {
    quotient: Wide,
    rest: u8,
}

impl Wide {
    // How many bytes the decimal has.
    pub fn decimal_len(self) -> usize
        ensures { result ≡ length (decimal (bits self)) }
    {
        if self.is_negative() {
            return 1 + self.negate().digits_len();
        }
        self.digits_len()
    }

    // Writes the decimal where there is room for it, and answers how many bytes it has.
    pub fn write_decimal(self, out: &mut [u8]) -> usize
        ensures { Wrote (decimal (bits self)) out.old out.new result }
    {
        if self.is_short() {
            return write_short(self.lo as u8, out);
        }
        self.write_any(out)
    }

    // The same, whatever the integer.
    fn write_any(self, out: &mut [u8]) -> usize
        ensures { Wrote (decimal (bits self)) out.old out.new result }
    {
        let n = self.decimal_len();
        if out.len() < n {
            return n;
        }
        if self.is_negative() {
            out[0] = b'-';
            self.negate().write_digits(n - 1, &mut out[1..]);
            return n;
        }
        self.write_digits(n, out);
        n
    }

    // Writes the digits of the bits, of which there are n, over the front of the output.
    fn write_digits(self, n: usize, out: &mut [u8])
        requires n_value { n ≡ length (digits (bits self)) }
        requires n_in_bounds { n ≤ length out.old }
        ensures { out.new ≡ digits (bits self) ++ drop n out.old }
    {
        let mut rest = self;
        let mut i = n - 1;
        while !rest.is_one_digit() {
            let t = rest.tenth();
            out[i] = b'0' + t.rest;
            rest = t.quotient;
            i -= 1;
        }
        out[i] = b'0' + rest.lo as u8;
    }

    // How many digits the bits have.
    fn digits_len(self) -> usize
        ensures { result ≡ length (digits (bits self)) }
    {
        let mut rest = self;
        let mut n = 1;
        while !rest.is_one_digit() {
            let t = rest.tenth();
            rest = t.quotient;
            n += 1;
        }
        n
    }

    // Whether the bits have one digit.
    fn is_one_digit(self) -> bool
        ensures { result ≡ ltb (bits self) 10 }
    {
        self.hi == 0 && self.lo < 10
    }

    // Whether the bits have one or two digits, as most integers of a text do.
    fn is_short(self) -> bool
        ensures { result ≡ ltb (bits self) 100 }
    {
        self.hi == 0 && self.lo < 100
    }

    // The bits divided by ten.
    fn tenth(self) -> Divided
        ensures { (bits result.quotient ≡ bits self / 10) × (result.rest ≡ bits self % 10) }
    {
        if self.hi == 0 {
            return Divided {
                quotient: Wide {
                    hi: 0,
                    lo: self.lo / 10,
                },
                rest: (self.lo % 10) as u8,
            };
        }
        let a = self.hi % 10 * WORD + self.lo / WORD;
        let b = a % 10 * WORD + self.lo % WORD;
        Divided {
            quotient: Wide {
                hi: self.hi / 10,
                lo: a / 10 * WORD + b / 10,
            },
            rest: (b % 10) as u8,
        }
    }
}

// Writes a number of one or two digits where there is room for it, and answers how many they are.
fn write_short(n: u8, out: &mut [u8]) -> usize
    requires { n < 100 }
    ensures { Wrote (decimal n) out.old out.new result }
{
    if n < 10 {
        if out.len() < 1 {
            return 1;
        }
        out[0] = b'0' + n;
        return 1;
    }
    if out.len() < 2 {
        return 2;
    }
    out[0] = b'0' + n / 10;
    out[1] = b'0' + n % 10;
    2
}
