// White space and comments. Which characters are white space stands in a table of ranges; of an ASCII byte no code point has to be put together.
ghost use Rattle.std.specs.Prelude.{◌≡◌, ◌<◌, unwrap_or, IfSome};
ghost use Rattle.rules.specs.Bytes.{inside};
ghost use Rattle.rules.specs.Space.{white, space_len, skip_len, gap};
ghost use Rattle.lexer.specs.Blank.{blank, Blanks};

use rules::Range;

// White_Space, as ranges of code points.
const SPACES: [Range; 10] = [
    Range {
        lo: 0x0009,
        hi: 0x000D,
    },
    Range {
        lo: 0x0020,
        hi: 0x0020,
    },
    Range {
        lo: 0x0085,
        hi: 0x0085,
    },
    Range {
        lo: 0x00A0,
        hi: 0x00A0,
    },
    Range {
        lo: 0x1680,
        hi: 0x1680,
    },
    Range {
        lo: 0x2000,
        hi: 0x200A,
    },
    Range {
        lo: 0x2028,
        hi: 0x2029,
    },
    Range {
        lo: 0x202F,
        hi: 0x202F,
    },
    Range {
        lo: 0x205F,
        hi: 0x205F,
    },
    Range {
        lo: 0x3000,
        hi: 0x3000,
    },
];

// Whether a code point is in a range.
fn within(range: &Range, c: u32) -> bool
    ensures { result ≡ inside range.now.lo range.now.hi c }
{
    (range.lo..=range.hi).contains(&c)
}

// Whether a code point is white space.
pub fn is_white(c: u32) -> bool
    ensures { result ≡ white c }
{
    SPACES.iter().any(|range| within(range, c))
}

// Whether b is ASCII white space.
pub fn is_blank(b: u8) -> bool
    ensures { result ≡ blank b }
{
    if 127 < b {
        return false;
    }
    is_white(b as u32)
}

// The bytes of a white-space character at the front of s, where there is one.
fn space_len(s: &[u8]) -> Option<usize>
    ensures length { unwrap_or result 0 ≡ space_len s.now }
    ensures some { IfSome result (λ n. 0 < n) }
{
    let n = utf8::seq_len(s)?;
    let white = is_white(utf8::code_point(n, s));
    white.then_some(n)
}

// The bytes of a white-space character or of a comment at the front of s, where there is either.
fn skip_len(s: &[u8]) -> Option<usize>
    ensures length { unwrap_or result 0 ≡ skip_len s.now }
    ensures some { IfSome result (λ n. 0 < n) }
{
    if s.is_empty() {
        return None;
    }
    let b = s[0];
    if 127 < b {
        return space_len(s);
    }
    if is_blank(b) {
        return Some(1);
    }
    if b == b';' {
        return Some(1 + scan::line_len(&s[1..]));
    }
    None
}

// How many ASCII white-space bytes s begins with.
fn blank_len(s: &[u8]) -> usize
    ensures { Blanks s.now result }
{
    s.iter().take_while(|b| is_blank(**b)).count()
}

// The bytes of white space and comments at the front of s, one after another.
fn skip_all(s: &[u8]) -> usize
    ensures { result ≡ gap s.now }
{
    let mut i = 0;
    while let Some(n) = skip_len(&s[i..]) {
        i += n;
    }
    i
}

// The bytes of white space and comments at the front of s. Mostly that is ASCII white space alone.
pub fn skip_gap(s: &[u8]) -> usize
    ensures { result ≡ gap s.now }
{
    let n = blank_len(s);
    if s.len() <= n {
        return n;
    }
    let b = s[n];
    if 127 < b {
        return n + skip_all(&s[n..]);
    }
    if b == b';' {
        return n + skip_all(&s[n..]);
    }
    n
}
