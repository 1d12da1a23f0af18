// Operands: values and constants.
ghost use Rattle.std.specs.Prelude.{◌≡◌};
ghost use Rattle.rules.specs.Reading as R;
ghost use Rattle.parser.specs.Stands.{Ready, Runs, but_operands, lent_words};
ghost use Rattle.reader.specs.Commas.{comma_if, operands_behind, wanted};

use parser::{Fault, Parser};
use rules::{Operand, Words, code, kind};
use wide::Wide;

// An integer and a type, if any.
#[tactic(auto, using(parser::proofs::Steps::steps), unfolding(rules::specs::Reading::constant))]
fn constant(p: &mut Parser) -> Result<(), Fault>
    ensures runs { Runs R.constant p.old result p.new }
    ensures leaves { but_operands p.new ≡ but_operands p.old }
{
    let n = p.int()?;
    let width = p.type_if_any()?;
    p.claim_operand(Operand {
        code: code::CONSTANT,
        row: 0,
        width,
        bits: Words::from(n),
    })
}

// A name in scope.
#[tactic(auto, using(parser::proofs::Steps::steps), unfolding(rules::specs::Reading::named))]
fn named(p: &mut Parser) -> Result<(), Fault>
    requires { Ready p.old }
    ensures runs { Runs R.named p.old result p.new }
    ensures leaves { but_operands p.new ≡ but_operands p.old }
{
    let row = p.value()?;
    p.claim_operand(Operand {
        code: code::VALUE,
        row,
        width: 0,
        bits: Words::from(Wide::from(0)),
    })
}

// A name or a constant, by the token ahead.
#[tactic(auto, using(crate::proofs::Looks::look_steps), unfolding(rules::specs::Reading::operand, parser::specs::Stands::is_ahead))]
fn named_or_constant(p: &mut Parser) -> Result<(), Fault>
    requires { Ready p.old }
    ensures runs { Runs R.operand p.old result p.new }
    ensures leaves { but_operands p.new ≡ but_operands p.old }
{
    if p.is_ahead(kind::VAL_NAME)? {
        return named(p);
    }
    constant(p)
}

// A comma, where one is wanted.
#[tactic(auto, using(parser::proofs::Steps::steps), unfolding(crate::specs::Commas::comma_if))]
fn comma_if(p: &mut Parser, wanted: bool) -> Result<(), Fault>
    ensures runs { Runs (comma_if wanted) p.old result p.new }
    ensures leaves { lent_words p.new ≡ lent_words p.old }
{
    if wanted {
        p.expect(kind::COMMA)?;
    }
    Ok(())
}

// Whether a comma stands before operand i.
fn is_behind(comma: bool, i: u32) -> bool
    ensures { result ≡ wanted comma i }
{
    comma || 0 < i
}

// n operands with commas between them, and one before the first where `comma` says so.
// Every operand is read here, in one place, so that reading one is folded into the loop.
fn operands_behind(p: &mut Parser, n: u32, comma: bool) -> Result<(), Fault>
    requires { Ready p.old }
    ensures runs { Runs (operands_behind comma n) p.old result p.new }
    ensures leaves { but_operands p.new ≡ but_operands p.old }
{
    for i in 0..n {
        let behind = is_behind(comma, i);
        comma_if(p, behind)?;
        named_or_constant(p)?;
    }
    Ok(())
}

#[tactic(auto, using(crate::proofs::Commas::one_operand))]
pub fn operand(p: &mut Parser) -> Result<(), Fault>
    requires { Ready p.old }
    ensures runs { Runs R.operand p.old result p.new }
    ensures leaves { but_operands p.new ≡ but_operands p.old }
{
    operands_behind(p, 1, false)
}

// n operands, each behind a comma.
#[tactic(auto, using(crate::proofs::Commas::all_behind))]
pub fn further_operands(p: &mut Parser, n: u32) -> Result<(), Fault>
    requires { Ready p.old }
    ensures runs { Runs (R.further_operands n) p.old result p.new }
    ensures leaves { but_operands p.new ≡ but_operands p.old }
{
    operands_behind(p, n, true)
}

// n operands with commas between them.
#[tactic(auto, using(crate::proofs::Commas::all_between))]
pub fn operands_of(p: &mut Parser, n: u32) -> Result<(), Fault>
    requires { Ready p.old }
    ensures runs { Runs (R.operands n) p.old result p.new }
    ensures leaves { but_operands p.new ≡ but_operands p.old }
{
    operands_behind(p, n, false)
}
