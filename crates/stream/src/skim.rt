// Whole tokens are passed over at once: of a part that has many, few bytes go through the machine.
ghost use Rattle.std.specs.Prelude.{◌≤◌, ◌≡◌, true, length};
ghost use Rattle.std.specs.Option.{ForSome};
ghost use Rattle.rules.specs.Bytes.{count as count_of};
ghost use Rattle.lexer.specs.Blank.{blank};
ghost use Rattle.stream.specs.Skims.{sure_of, name_of, Passes, Skims, Ready, Leaps};

use crate::state::more;
use crate::{Lexing, Mode, Sequence, Stream};

// How many bytes were passed over, and how many tokens are behind them.
#[derive(Clone, Copy, Debug, PartialEq, Eq)]
pub struct Skimmed {
    pub past: usize,
    pub count: u32,
}

// A state, and how many bytes of a part led to it.
#[derive(Clone, Copy, Debug, PartialEq, Eq)]
pub struct Leap {
    pub state: Stream,
    pub past: usize,
}

// How many ASCII white-space bytes s begins with. By a loop, since `take_while` and `count` take a twentieth more time of a text in long parts.
fn blanks(s: &[u8]) -> usize
    ensures { result ≡ count_of blank s.now }
{
    let mut i = 0;
    while i < s.len() && lexer::space::is_blank(s[i]) {
        i += 1;
    }
    i
}

// The bytes of a token where it is not too long and ends before its text of `all` bytes does.
fn sure(bytes: usize, all: usize) -> Option<usize>
    ensures { result ≡ sure_of bytes all }
{
    let ends = bytes < all;
    (ends && bytes <= 4096).then_some(bytes)
}

// The bytes of the token that s begins with, where it is sure to end inside s. A word that begins with 'k' may be knownBits, so it is not sure.
fn token_len(s: &[u8]) -> Option<usize>
    requires { 1 ≤ length s.now }
    ensures { ForSome result (Passes s.now) }
{
    let b = s[0];
    match b {
        0x80..=0xFF => None,
        _ if lexer::space::is_blank(b) => None,
        b';' => None,
        _ if lexer::token::is_single(b) => Some(1),
        b'%' => name_len(s),
        b'k' => None,
        _ if scan::is_letter(b) => sure(1 + scan::name_len(&s[1..]), s.len()),
        _ if lexer::token::starts_int(b) => sure(1 + scan::digit_len(&s[1..]), s.len()),
        _ => None,
    }
}

// The same of a value name, where s begins with its '%'.
fn name_len(s: &[u8]) -> Option<usize>
    requires { 1 ≤ length s.now }
    ensures { result ≡ name_of s.now }
{
    match scan::name_len(&s[1..]) {
        0 => None,
        n => sure(1 + n, s.len()),
    }
}

// The white space and the tokens that s begins with, as far as they are sure to end inside it.
fn skim(s: &[u8], count: u32) -> Skimmed
    ensures { Skims s.now count result }
{
    let mut past = blanks(s);
    let mut n = count;
    while past < s.len() {
        let Some(m) = token_len(&s[past..]) else {
            break;
        };
        n = more(n);
        past += m;
        past += blanks(&s[past..]);
    }
    Skimmed { past, count: n }
}

impl Stream {
    // Whether the state is between tokens and a part still lies within the longest text.
    fn ready(self, bytes: &[u8]) -> bool
        ensures { result ≡ true → Ready self (length bytes.now) }
    {
        matches!(self.sequence, Sequence::Between)
            && matches!(self.lexing.mode, Mode::Gap)
            && self.seen as usize + bytes.len() <= 65537
    }

    // The state after as much of a part as can be passed over at once.
    fn skipped(self, bytes: &[u8]) -> Leap
        ensures { Leaps self bytes.now result }
    {
        if !self.ready(bytes) {
            return Leap {
                state: self,
                past: 0,
            };
        }
        let skimmed = skim(bytes, self.lexing.count);
        Leap {
            state: Stream {
                seen: self.seen + skimmed.past as u32,
                sequence: Sequence::Between,
                lexing: Lexing {
                    mode: Mode::Gap,
                    count: skimmed.count,
                },
            },
            past: skimmed.past,
        }
    }

    // The state after a byte of a part and all before it that can be passed over at once, or after the whole part.
    pub fn advance(self, bytes: &[u8]) -> Leap
        requires { 1 ≤ length bytes.now }
        ensures { (1 ≤ result.past) × Leaps self bytes.now result }
    {
        let Leap { state, past } = self.skipped(bytes);
        match bytes.get(past) {
            None => Leap { state, past },
            Some(b) => Leap {
                state: state.step(*b),
                past: past + 1,
            },
        }
    }
}
