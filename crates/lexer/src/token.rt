// The token at the front of a text that begins with neither white space nor a comment.
// The scanners are lent the rest of the text behind what is known of it, so that no byte is scanned twice.
ghost use Rattle.std.specs.Prelude.{◌≡◌, ◌+◌, ◌^◌, ◌<◌, length, get_or, drop, leb, unwrap_or, IfSome};
ghost use Rattle.rules.specs.Tokens.{single as single_of, int_start, named as named_of, pattern as pattern_of, word as word_of, front as front_of};

use rules::{Front, kind};

// The kind of the token that b is by itself, where it is one.
pub fn single(b: u8) -> Option<u32>
    ensures kind { unwrap_or result 0 ≡ single_of b }
    ensures some { IfSome result (λ k. 0 < k) }
{
    match b {
        b',' => Some(kind::COMMA),
        b'=' => Some(kind::EQ),
        b':' => Some(kind::COLON),
        b'(' => Some(kind::OPEN_PAREN),
        b')' => Some(kind::CLOSE_PAREN),
        b'[' => Some(kind::OPEN_BRACKET),
        _ => None,
    }
}

// Whether b is a token by itself.
pub fn is_single(b: u8) -> bool
    ensures { result ≡ leb 1 (single_of b) }
{
    single(b).is_some()
}

// Whether an integer starts with b.
pub fn starts_int(b: u8) -> bool
    ensures { result ≡ int_start b }
{
    b == b'-' || scan::is_digit(b)
}

// The value name of '%' and n name bytes, or a fault at the '%'.
fn named(n: usize) -> Front
    requires { 1 + n < 2 ^ 64 }
    ensures { result ≡ named_of n }
{
    if n == 0 {
        return Front::Fault(0);
    }
    Front::Spelt(kind::VAL_NAME, 1 + n)
}

// The token that the word knownBits begins where s follows it: at once '=' and one or more of 0 1 x; or where the fault lies.
fn pattern(s: &[u8]) -> Front
    ensures { result ≡ pattern_of s.now }
{
    if s.is_empty() {
        return Front::Fault(8);
    }
    if s[0] != b'=' {
        return Front::Fault(9);
    }
    let n = scan::pattern_len(&s[1..]);
    if n == 0 {
        return Front::Fault(10);
    }
    Front::Spelt(kind::KNOWN_BITS, 10 + n)
}

// The token of the word that s begins with, a letter and n name bytes. Only a word as long as knownBits is compared with it.
fn word(s: &[u8], n: usize) -> Front
    requires { n < length s.now }
    ensures { result ≡ word_of (get_or s.now 0 0) (drop 1 s.now) n }
{
    let past = 1 + n;
    if past != 9 {
        return Front::Spelt(kind::IDENT, past);
    }
    if scan::same(&s[..9], b"knownBits") {
        return pattern(&s[9..]);
    }
    Front::Spelt(kind::IDENT, past)
}

// What stands at the front of s.
pub fn front(s: &[u8]) -> Front
    ensures { result ≡ front_of s.now }
{
    if s.is_empty() {
        return Front::Nothing;
    }
    let b = s[0];
    if let Some(k) = single(b) {
        return Front::Spelt(k, 1);
    }
    if b == b'%' {
        return named(scan::name_len(&s[1..]));
    }
    if scan::is_letter(b) {
        return word(s, scan::name_len(&s[1..]));
    }
    if starts_int(b) {
        return Front::Spelt(kind::INT, 1 + scan::digit_len(&s[1..]));
    }
    Front::Fault(0)
}
