// Well-formed UTF-8: the sequence at the front of a text, its code point, and the check of a whole text.
#![tactic(auto)]

ghost use Rattle.std.specs.Prelude.{◌≡◌, ◌≤◌, ◌<◌, ◌-◌, cond, ◌∷◌, drop, get_or, unwrap_or, IfSome};
ghost use Rattle.rules.specs.Bytes.{count};
ghost use Rattle.rules.specs.Utf8.{◌to◌, lies, seq_len, code_point, checked};
ghost use Rattle.utf8.specs.Sequences.{going_on};
ghost use Rattle.utf8.specs.Ascii.{ascii, all_ascii, Begins, Passes};

use rules::IllFormed;

// n where the second byte of s is from lo to hi and those after it, up to the n-th, go on a sequence.
fn sequence(n: usize, s: &[u8], lo: u8, hi: u8) -> Option<usize>
    requires { 2 ≤ n }
    ensures length { unwrap_or result 0 ≡ cond (lies (lo to hi ∷ going_on (n - 2)) (drop 1 s.now)) n 0 }
    ensures some { IfSome result (λ n. 0 < n) }
{
    if s.len() < n {
        return None;
    }
    if !scan::inside(lo, hi, s[1]) {
        return None;
    }
    let goes_on = s[2..n].iter().all(|b| scan::inside(0x80, 0xBF, *b));
    goes_on.then_some(n)
}

// The bytes of the well-formed sequence at the front of s, where there is one.
pub fn seq_len(s: &[u8]) -> Option<usize>
    ensures length { unwrap_or result 0 ≡ seq_len s.now }
    ensures some { IfSome result (λ n. 0 < n) }
{
    if s.is_empty() {
        return None;
    }
    match s[0] {
        0x00..=0x7F => Some(1),
        0xC2..=0xDF => sequence(2, s, 0x80, 0xBF),
        0xE0 => sequence(3, s, 0xA0, 0xBF),
        0xE1..=0xEC => sequence(3, s, 0x80, 0xBF),
        0xED => sequence(3, s, 0x80, 0x9F),
        0xEE..=0xEF => sequence(3, s, 0x80, 0xBF),
        0xF0 => sequence(4, s, 0x90, 0xBF),
        0xF1..=0xF3 => sequence(4, s, 0x80, 0xBF),
        0xF4 => sequence(4, s, 0x80, 0x8F),
        _ => None,
    }
}

// The byte of s at a place; 0 past its end.
fn byte_at(s: &[u8], i: usize) -> u8
    ensures { result ≡ get_or s.now i 0 }
{
    s.get(i).copied().unwrap_or(0)
}

// The code point of a sequence of n bytes at the front of s.
pub fn code_point(n: usize, s: &[u8]) -> u32
    ensures { result ≡ code_point n s.now }
{
    let a = byte_at(s, 0) as u32;
    if n <= 1 {
        return a;
    }
    let b = byte_at(s, 1) as u32 % 64;
    if n <= 2 {
        return a % 32 * 64 + b;
    }
    let c = byte_at(s, 2) as u32 % 64;
    if n <= 3 {
        return (a % 16 * 64 + b) * 64 + c;
    }
    let d = byte_at(s, 3) as u32 % 64;
    ((a % 8 * 64 + b) * 64 + c) * 64 + d
}

// Whether all of s is ASCII. No test leaves the loop early, so that many bytes can be looked at in one go.
fn all_ascii(s: &[u8]) -> bool
    ensures { result ≡ all_ascii s.now }
{
    let greatest = s.iter().fold(0, |greatest, b| u8::max(greatest, *b));
    greatest <= 0x7F
}

// How many bytes are looked at in one go.
const BLOCK: usize = 32;

// How many ASCII bytes s begins with, as far as whole blocks tell.
fn ascii_blocks(s: &[u8]) -> usize
    ensures { Begins s.now result }
{
    let mut i = 0;
    while BLOCK <= s.len() - i && all_ascii(&s[i..i + BLOCK]) {
        i += BLOCK;
    }
    i
}

// How many ASCII bytes s begins with.
fn ascii_len(s: &[u8]) -> usize
    ensures { result ≡ count ascii s.now }
{
    let n = ascii_blocks(s);
    n + s[n..].iter().take_while(|b| b.is_ascii()).count()
}

// The bytes of a run of ASCII or of one other sequence at the front of s, where there is either.
fn run_len(s: &[u8]) -> Option<usize>
    ensures passes { Passes s.now (unwrap_or result 0) }
    ensures some { IfSome result (λ n. 0 < n) }
{
    if s.is_empty() {
        return None;
    }
    if s[0] <= 0x7F {
        return Some(ascii_len(s));
    }
    seq_len(s)
}

// That a whole text is well-formed, or where its first bad sequence starts.
pub fn check(text: &[u8]) -> Result<(), IllFormed>
    ensures { result ≡ checked text.now }
{
    let mut i = 0;
    while i < text.len() {
        let Some(n) = run_len(&text[i..]) else {
            return Err(IllFormed { at: i });
        };
        i += n;
    }
    Ok(())
}
