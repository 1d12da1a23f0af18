// Attribute rows.
ghost use Rattle.std.specs.Prelude.{◌≡◌};
ghost use Rattle.rules.specs.WellFormed.{pattern_ok, greatest as greatest_of, numbers_ok, attribute_ok, attributes_ok};

use crate::letters::{demanded_in, known_in, no_span};
use crate::operand::at_most;
use crate::sort::inside;
use rules::{Attribute, Span, code};
use tables::rows::{Table, attribute_at};

// Whether an attribute has the pattern that its code wants, or none.
#[tactic(auto, unfolding(rules::specs::WellFormed::pattern_ok))]
fn pattern_ok(text: &[u8], r: Attribute) -> bool
    ensures { result ≡ pattern_ok text.now r }
{
    match r.code {
        code::KNOWN_BITS => known_in(text, r.pattern),
        code::DEMANDED_BITS => demanded_in(text, r.pattern),
        _ => no_span(r.pattern),
    }
}

// The greatest number that an attribute other than range has.
#[tactic(auto, unfolding(rules::specs::WellFormed::greatest))]
fn greatest(c: u32) -> u32
    ensures { result ≡ greatest_of c }
{
    if c == code::SIGN_BITS { 255 } else { 0 }
}

// Whether an attribute has the numbers that its code wants, or none.
#[tactic(auto, unfolding(rules::specs::WellFormed::numbers_ok))]
fn numbers_ok(r: Attribute) -> bool
    ensures { result ≡ numbers_ok r }
{
    if r.code == code::RANGE {
        return true;
    }
    at_most(greatest(r.code), r.low) && at_most(0, r.high)
}

// Whether an attribute's row has a code from `lo` up to and with `hi`, and what that code wants. Inlined: as a call, which is handed the row in memory, a store of many
// attributes takes half as long again.
#[tactic(auto, unfolding(rules::specs::WellFormed::attribute_ok))]
#[inline(always)]
fn attribute_ok(text: &[u8], lo: u32, hi: u32, r: Attribute) -> bool
    ensures { result ≡ attribute_ok text.now lo hi r }
{
    inside(lo, hi, r.code) && pattern_ok(text, r) && numbers_ok(r)
}

// Whether the attribute rows of a span are so.
pub fn attributes_ok<T: Table>(text: &[u8], attributes: T, lo: u32, hi: u32, s: Span) -> bool
    ensures { result ≡ attributes_ok text.now (T.words attributes) lo hi s }
{
    (s.first..s.past).all(|i| attribute_ok(text, lo, hi, attribute_at(attributes, i)))
}
