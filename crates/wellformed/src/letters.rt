// Names and patterns: places in the text, and the letters there.
ghost use Rattle.std.specs.Prelude.{◌≡◌};
ghost use Rattle.rules.specs.Bytes.{bit, pattern_byte, same as same_bytes};
ghost use Rattle.rules.specs.Rows.{name_at};
ghost use Rattle.rules.specs.WellFormed.{is_name, only, name_in, pattern_in, no_span, new_name};

use rules::Span;
use tables::letters;
use tables::rows::{Table, name_at};

// Whether s is '%' and one or more name bytes.
#[tactic(auto, unfolding(rules::specs::WellFormed::is_name))]
fn is_name(s: &[u8]) -> bool
    ensures { result ≡ is_name s.now }
{
    if s.len() < 2 {
        return false;
    }
    if s[0] != b'%' {
        return false;
    }
    scan::name_len(&s[1..]) == s.len() - 1
}

// Whether a span is a name's in the text.
#[tactic(auto, unfolding(rules::specs::WellFormed::name_in))]
pub fn name_in(text: &[u8], s: Span) -> bool
    ensures { result ≡ name_in text.now s }
{
    if text.len() < s.past as usize {
        return false;
    }
    is_name(letters(text, s.first, s.past))
}

// Whether s has letters of a demandedBits pattern alone.
fn only_bits(s: &[u8]) -> bool
    ensures { result ≡ only bit s.now }
{
    s.iter().all(|b| *b == b'0' || *b == b'1')
}

// Whether a span is that of a knownBits pattern in the text.
#[tactic(auto, unfolding(rules::specs::WellFormed::pattern_in, rules::specs::WellFormed::is_pattern))]
pub fn known_in(text: &[u8], s: Span) -> bool
    ensures { result ≡ pattern_in pattern_byte text.now s }
{
    if text.len() < s.past as usize {
        return false;
    }
    let l = letters(text, s.first, s.past);
    !l.is_empty() && scan::pattern_len(l) == l.len()
}

// Whether a span is that of a demandedBits pattern in the text.
#[tactic(auto, unfolding(rules::specs::WellFormed::pattern_in, rules::specs::WellFormed::is_pattern))]
pub fn demanded_in(text: &[u8], s: Span) -> bool
    ensures { result ≡ pattern_in bit text.now s }
{
    if text.len() < s.past as usize {
        return false;
    }
    let l = letters(text, s.first, s.past);
    !l.is_empty() && only_bits(l)
}

// Whether a span is unused.
#[tactic(auto, unfolding(rules::specs::WellFormed::no_span))]
pub fn no_span(s: Span) -> bool
    ensures { result ≡ no_span s }
{
    s.first == 0 && s.past == 0
}

// Whether statement row k has a name.
#[tactic(auto, unfolding(rules::specs::Rows::name_at))]
fn has_name<T: Table>(text: &[u8], statements: T, k: u32, name: &[u8]) -> bool
    ensures { result ≡ same_bytes (name_at text.now (T.words statements) k) name.now }
{
    let s = name_at(statements, k);
    scan::same(letters(text, s.first, s.past), name)
}

// Whether no statement row from `first` up to i has the name of row i.
pub fn new_name<T: Table>(text: &[u8], statements: T, first: u32, i: u32) -> bool
    ensures { result ≡ new_name text.now (T.words statements) first i }
{
    let s = name_at(statements, i);
    let name = letters(text, s.first, s.past);
    (first..i).all(|k| !has_name(text, statements, k, name))
}
