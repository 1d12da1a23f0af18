// Attributes and root attributes.
ghost use Rattle.std.specs.Prelude.{◌≡◌, ◌+◌};
ghost use Rattle.rules.specs.Bytes.{bit};
ghost use Rattle.rules.specs.Reading as R;
ghost use Rattle.rules.specs.Keywords.{keyword_number};
ghost use Rattle.wide.specs.Wide.{bits};
ghost use Rattle.parser.specs.Stands.{Runs, but_attributes, lent_words};
ghost use Rattle.reader.specs.Roots.{root_attribute_inner};

use parser::{Fault, Parser, What};
use rules::keyword::Keyword;
use rules::{Attribute, Span, Spot, Words, code, kind};
use wide::Wide;

// No place in the text.
const NOWHERE: Span = Span { first: 0, past: 0 };

// The row of an attribute that is told by its code and its pattern's place.
fn plain(code: u32, pattern: Span) -> Attribute
    ensures { result ≡ R.attribute_row code pattern 0 0 }
{
    numbered(code, pattern, Wide::from(0), Wide::from(0))
}

// The row of an attribute, by its code, its pattern's place and its two numbers.
fn numbered(code: u32, pattern: Span, low: Wide, high: Wide) -> Attribute
    ensures { result ≡ R.attribute_row code pattern (bits low) (bits high) }
{
    Attribute {
        code,
        pattern,
        low: Words::from(low),
        high: Words::from(high),
    }
}

// ')' and the row of an attribute. Inlined: as a call, which is handed the row in memory, a text of many attributes takes a third longer.
#[tactic(auto, using(parser::proofs::Steps::steps), unfolding(rules::specs::Reading::close_attribute))]
#[inline(always)]
fn close(p: &mut Parser, row: Attribute) -> Result<(), Fault>
    ensures runs { Runs (R.close_attribute row) p.old result p.new }
    ensures leaves { but_attributes p.new ≡ but_attributes p.old }
{
    p.expect(kind::CLOSE_PAREN)?;
    p.claim_attribute(row)
}

// The letters behind the ten of `knownBits=`.
fn pattern_of(t: Spot) -> Span
    ensures { result ≡ R.pattern_of t }
{
    Span {
        first: t.first.saturating_add(10).min(t.past),
        past: t.past,
    }
}

// What stands behind `signBits`: '=', a number of 8 bits, ')' and the row.
#[tactic(auto, using(parser::proofs::Steps::steps), unfolding(rules::specs::Reading::sign_bits))]
fn sign_bits(p: &mut Parser) -> Result<(), Fault>
    ensures runs { Runs R.sign_bits p.old result p.new }
    ensures leaves { but_attributes p.new ≡ but_attributes p.old }
{
    p.expect(kind::EQ)?;
    let n = p.int_8()?;
    let row = numbered(
        code::SIGN_BITS,
        NOWHERE,
        Wide::from(u64::from(n)),
        Wide::from(0),
    );
    close(p, row)
}

// What stands behind `range`: '=', two numbers as in `[1,5)`, ')' and the row.
#[tactic(auto, using(parser::proofs::Steps::steps), unfolding(rules::specs::Reading::range))]
fn range(p: &mut Parser) -> Result<(), Fault>
    ensures runs { Runs R.range p.old result p.new }
    ensures leaves { but_attributes p.new ≡ but_attributes p.old }
{
    p.expect(kind::EQ)?;
    p.expect(kind::OPEN_BRACKET)?;
    let low = p.int()?;
    p.expect(kind::COMMA)?;
    let high = p.int()?;
    p.expect(kind::CLOSE_PAREN)?;
    close(p, numbered(code::RANGE, NOWHERE, low, high))
}

// An attribute that is a keyword alone, by its code.
#[tactic(auto, using(crate::proofs::Codes::flag_row), unfolding(rules::specs::Reading::flag))]
#[inline(always)]
fn flag(p: &mut Parser, code: u32) -> Result<(), Fault>
    ensures runs { Runs (R.flag (code + 8)) p.old result p.new }
    ensures leaves { but_attributes p.new ≡ but_attributes p.old }
{
    close(p, plain(code, NOWHERE))
}

// What stands behind '(': the token t, which is the keyword k, if it is one.
#[tactic(auto, using(crate::proofs::Codes::attribute_steps), unfolding(rules::specs::Reading::attribute_inner))]
fn attribute_inner(p: &mut Parser, t: Spot, k: Option<Keyword>) -> Result<(), Fault>
    ensures runs { Runs (R.attribute_inner t (keyword_number k)) p.old result p.new }
    ensures leaves { but_attributes p.new ≡ but_attributes p.old }
{
    if t.kind == kind::KNOWN_BITS {
        return close(p, plain(code::KNOWN_BITS, pattern_of(t)));
    }
    match k {
        Some(Keyword::PowerOfTwo) => flag(p, code::POWER_OF_TWO),
        Some(Keyword::Negative) => flag(p, code::NEGATIVE),
        Some(Keyword::NonNegative) => flag(p, code::NON_NEGATIVE),
        Some(Keyword::NonZero) => flag(p, code::NON_ZERO),
        Some(Keyword::HasExternalUses) => flag(p, code::HAS_EXTERNAL_USES),
        Some(Keyword::SignBits) => sign_bits(p),
        Some(Keyword::Range) => range(p),
        _ => Err(Fault {
            what: What::Token,
            at: t,
        }),
    }
}

// An attribute, in parentheses.
#[tactic(auto, using(parser::proofs::Steps::steps), unfolding(rules::specs::Reading::attribute, parser::specs::Stands::world))]
fn attribute(p: &mut Parser) -> Result<(), Fault>
    ensures runs { Runs R.attribute p.old result p.new }
    ensures leaves { but_attributes p.new ≡ but_attributes p.old }
{
    p.expect(kind::OPEN_PAREN)?;
    let t = p.token()?;
    let k = p.keyword_at(t);
    attribute_inner(p, t, k)
}

// Whether a letter is 0 or 1.
fn is_bit(b: u8) -> bool
    ensures { result ≡ bit b }
{
    b == b'0' || b == b'1'
}

// Whether all letters are 0 or 1.
fn all_bits(s: &[u8]) -> bool
    ensures { result ≡ R.all_bits s.now }
{
    for b in s {
        if !is_bit(*b) {
            return false;
        }
    }
    true
}

// What stands behind `demandedBits`: '=', a pattern of 0 and 1, ')' and the row.
#[tactic(auto, using(parser::proofs::Steps::steps), unfolding(rules::specs::Reading::demanded_bits, parser::specs::Stands::world))]
fn demanded_bits(p: &mut Parser) -> Result<(), Fault>
    ensures runs { Runs R.demanded_bits p.old result p.new }
    ensures leaves { but_attributes p.new ≡ but_attributes p.old }
{
    p.expect(kind::EQ)?;
    let t = p.expect(kind::INT)?;
    if all_bits(p.letters(t)) {
        let pattern = Span {
            first: t.first,
            past: t.past,
        };
        return close(p, plain(code::DEMANDED_BITS, pattern));
    }
    Err(Fault {
        what: What::Token,
        at: t,
    })
}

// What stands behind the '(' of a root attribute: the token t, which is the keyword k, if it is one.
#[tactic(auto, using(parser::proofs::Steps::steps), unfolding(crate::specs::Roots::root_attribute_inner))]
fn root_attribute_inner(p: &mut Parser, t: Spot, k: Option<Keyword>) -> Result<(), Fault>
    ensures runs { Runs (root_attribute_inner t (keyword_number k)) p.old result p.new }
    ensures leaves { but_attributes p.new ≡ but_attributes p.old }
{
    match k {
        Some(Keyword::HarvestedFromUse) => flag(p, code::HARVESTED_FROM_USE),
        Some(Keyword::DemandedBits) => demanded_bits(p),
        _ => Err(Fault {
            what: What::Token,
            at: t,
        }),
    }
}

// A root attribute, in parentheses: harvestedFromUse or demandedBits.
#[tactic(auto, using(parser::proofs::Steps::steps), unfolding(rules::specs::Reading::root_attribute, crate::specs::Roots::root_attribute_inner, parser::specs::Stands::world))]
fn root_attribute(p: &mut Parser) -> Result<(), Fault>
    ensures runs { Runs R.root_attribute p.old result p.new }
    ensures leaves { but_attributes p.new ≡ but_attributes p.old }
{
    p.expect(kind::OPEN_PAREN)?;
    let t = p.token()?;
    let k = p.keyword_at(t);
    root_attribute_inner(p, t, k)
}

// Whether '(' comes next.
#[tactic(auto, unfolding(rules::specs::Reading::open_paren_ahead, parser::specs::Stands::is_ahead))]
fn open_paren_ahead(p: &mut Parser) -> Result<bool, Fault>
    ensures runs { Runs R.open_paren_ahead p.old result p.new }
    ensures leaves { lent_words p.new ≡ lent_words p.old }
{
    p.is_ahead(kind::OPEN_PAREN)
}

// The attributes that stand here, as many as there are. This loop and its like (root attributes, statements, items) stay four: one over a rule that is handed in would be
// longer than they are.
pub fn attributes_of(p: &mut Parser) -> Result<(), Fault>
    ensures runs { Runs R.attributes p.old result p.new }
    ensures leaves { but_attributes p.new ≡ but_attributes p.old }
{
    while open_paren_ahead(p)? {
        attribute(p)?;
    }
    Ok(())
}

// The root attributes that stand here, as many as there are.
pub fn root_attributes(p: &mut Parser) -> Result<(), Fault>
    ensures runs { Runs R.root_attributes p.old result p.new }
    ensures leaves { but_attributes p.new ≡ but_attributes p.old }
{
    while open_paren_ahead(p)? {
        root_attribute(p)?;
    }
    Ok(())
}
