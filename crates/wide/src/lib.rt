// Signed integers of 128 bits: read from digits, written in decimal, compared, and fitted to narrower fields.
// An integer is its two's complement in two halves of 64 bits. Every contract speaks of the bits as one number below 2^128.
#![tactic(auto)]

mod reading;
mod writing;

ghost use Rattle.std.specs.Prelude.{◌≡◌, ◌+◌, ◌-◌, ◌^◌, eqb, ltb};
ghost use Rattle.rules.specs.Integers.{number, below, opposite, negative, order};
ghost use Rattle.rules.specs.Rows.{words_of, bits_of};
ghost use Rattle.wide.specs.Wide.{bits, as_field};

pub use reading::type_width;
use rules::Words;

// An integer from -2^127 to 2^127 - 1.
#[derive(Clone, Copy, Debug, PartialEq, Eq)]
pub struct Wide {
    pub hi: u64,
    pub lo: u64,
}

// The largest half, the number past a word, and the number of the sign's bit in the high half.
const MOST: u64 = 0xffff_ffff_ffff_ffff;

const WORD: u64 = 0x1_0000_0000;

const SIGN: u64 = 0x8000_0000_0000_0000;

impl Wide {
    // The two ends.
    pub const MIN: Wide = Wide { hi: SIGN, lo: 0 };

    pub const MAX: Wide = Wide {
        hi: SIGN - 1,
        lo: MOST,
    };

    // The least integer, -2^127.
    pub fn least() -> Wide
        ensures { bits result ≡ 2 ^ 127 }
    {
        Wide::MIN
    }

    // The largest integer, 2^127 - 1.
    pub fn most() -> Wide
        ensures { bits result ≡ 2 ^ 127 - 1 }
    {
        Wide::MAX
    }

    // Whether the two are one integer.
    pub fn same(self, w: Wide) -> bool
        ensures { result ≡ eqb (bits self) (bits w) }
    {
        self == w
    }

    // Whether the integer is below 0.
    pub fn is_negative(self) -> bool
        ensures { result ≡ negative (bits self) }
    {
        SIGN <= self.hi
    }

    // Whether the integer is below w.
    pub fn less(self, w: Wide) -> bool
        ensures { result ≡ ltb (order (bits self)) (order (bits w)) }
    {
        self.flipped().under(w.flipped())
    }

    // The integer in an unsigned field whose largest number is most.
    pub fn fits(self, most: u32) -> Option<u32>
        ensures { as_field result ≡ below (most + 1) (number (bits self)) }
    {
        if self.hi != 0 || self.lo > most as u64 {
            return None;
        }
        Some(self.lo as u32)
    }

    // Whether the bits, as a number without a sign, are below those of w.
    fn under(self, w: Wide) -> bool
        ensures { result ≡ ltb (bits self) (bits w) }
    {
        if self.hi < w.hi {
            return true;
        }
        if w.hi < self.hi {
            return false;
        }
        self.lo < w.lo
    }

    // The bits with the sign's flipped, which stand in the order of the integers.
    fn flipped(self) -> Wide
        ensures { bits result ≡ order (bits self) }
    {
        if self.hi < SIGN {
            return Wide {
                hi: self.hi + SIGN,
                lo: self.lo,
            };
        }
        Wide {
            hi: self.hi - SIGN,
            lo: self.lo,
        }
    }

    // The bits of minus the integer; those of the least are their own.
    fn negate(self) -> Wide
        ensures { bits result ≡ opposite (bits self) }
    {
        if self.lo != 0 {
            return Wide {
                hi: MOST - self.hi,
                lo: MOST - self.lo + 1,
            };
        }
        if self.hi == 0 {
            return self;
        }
        Wide {
            hi: MOST - self.hi + 1,
            lo: 0,
        }
    }
}

// The integer n.
impl From<u64> for Wide {
    ghost from_gives = { λ n w. bits w ≡ n };

    fn from(n: u64) -> Wide {
        Wide { hi: 0, lo: n }
    }
}

// The integer whose bits are those of four words.
impl From<Words> for Wide {
    ghost from_gives = { λ words w. bits w ≡ bits_of words };

    fn from(words: Words) -> Wide {
        Wide {
            hi: words.a as u64 * WORD + words.b as u64,
            lo: words.c as u64 * WORD + words.d as u64,
        }
    }
}

// Four words with the same bits.
impl From<Wide> for Words {
    ghost from_gives = { λ w words. words ≡ words_of (bits w) };

    fn from(w: Wide) -> Words {
        Words {
            a: (w.hi / WORD) as u32,
            b: (w.hi % WORD) as u32,
            c: (w.lo / WORD) as u32,
            d: (w.lo % WORD) as u32,
        }
    }
}
