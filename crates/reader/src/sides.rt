// Right sides of assignments.
ghost use Rattle.std.specs.Prelude.{◌≡◌, ◌≤◌, ◌-◌};
ghost use Rattle.rules.specs.Keywords.{keyword_number};
ghost use Rattle.rules.specs.Reading as R;
ghost use Rattle.parser.specs.Stands.{Ready, Runs, ahead_of, but_operands, lent_words};

use crate::operands::{further_operands, operands_of};
use instructions::Instruction;
use parser::{Fault, Parser, What};
use rules::keyword::Keyword;
use rules::{Side, Spot, code};

// A right side that is told by its code alone.
pub(crate) fn plain(code: u32) -> Side
    ensures { result ≡ R.side code 0 0 }
{
    Side {
        code,
        number: 0,
        block: 0,
    }
}

// A keyword alone, by its code: `var`, `reservedinst`, `reservedconst`.
#[tactic(auto, using(parser::proofs::Steps::steps), unfolding(rules::specs::Reading::plain_side))]
fn plain_side(p: &mut Parser, code: u32) -> Result<Side, Fault>
    requires { 60 ≤ code }
    ensures runs { Runs (R.plain_side (code - 60)) p.old result p.new }
    ensures leaves { lent_words p.new ≡ lent_words p.old }
{
    p.token()?;
    Ok(plain(code))
}

#[tactic(auto, using(parser::proofs::Steps::steps), unfolding(rules::specs::Reading::block_side))]
fn block_side(p: &mut Parser) -> Result<Side, Fault>
    ensures runs { Runs R.block_side p.old result p.new }
    ensures leaves { lent_words p.new ≡ lent_words p.old }
{
    p.token()?;
    let number = p.int_32()?;
    Ok(Side {
        code: code::BLOCK,
        number,
        block: 0,
    })
}

#[tactic(auto, using(crate::proofs::Blocks::phi_steps), unfolding(rules::specs::Reading::phi_side, parser::specs::Stands::world))]
fn phi_side(p: &mut Parser) -> Result<Side, Fault>
    requires { Ready p.old }
    ensures runs { Runs R.phi_side p.old result p.new }
    ensures leaves { but_operands p.new ≡ but_operands p.old }
{
    p.token()?;
    let block = p.block()?;
    let n = p.number_of(block);
    further_operands(p, n)?;
    Ok(Side {
        code: code::PHI,
        number: 0,
        block,
    })
}

#[tactic(auto, using(parser::proofs::Steps::steps), unfolding(rules::specs::Reading::instruction_side))]
fn instruction_side(p: &mut Parser, i: Instruction) -> Result<Side, Fault>
    requires { Ready p.old }
    ensures runs { Runs (R.instruction_side i.place) p.old result p.new }
    ensures leaves { but_operands p.new ≡ but_operands p.old }
{
    p.token()?;
    operands_of(p, i.arity() as u32)?;
    Ok(plain(i.code()))
}

// The right side that begins with a keyword; what is none of them is at fault where the last token was found.
#[tactic(auto, using(crate::proofs::Firsts::keyword_steps), unfolding(rules::specs::Reading::side_of))]
fn keyword_side(p: &mut Parser, k: Option<Keyword>) -> Result<Side, Fault>
    requires { Ready p.old }
    ensures runs { Runs (R.side_of (keyword_number k) 59) p.old result p.new }
    ensures leaves { but_operands p.new ≡ but_operands p.old }
{
    match k {
        Some(Keyword::Var) => plain_side(p, code::VAR),
        Some(Keyword::Block) => block_side(p),
        Some(Keyword::Phi) => phi_side(p),
        Some(Keyword::Reservedinst) => plain_side(p, code::RESERVEDINST),
        Some(Keyword::Reservedconst) => plain_side(p, code::RESERVEDCONST),
        _ => Err(Fault {
            what: What::Token,
            at: p.stand.last,
        }),
    }
}

// The right side that begins with a token, if there is one: an instruction is no keyword, and is not looked for among them.
#[tactic(auto, using(crate::proofs::Firsts::word_steps), unfolding(rules::specs::Reading::keyword_at, rules::specs::Reading::instruction_at))]
fn side_ahead(p: &mut Parser, ahead: Option<Spot>) -> Result<Side, Fault>
    requires { Ready p.old }
    ensures runs { Runs (R.side_of (R.keyword_at p.old.text.bytes.now (ahead_of ahead)) (R.instruction_at p.old.text.bytes.now (ahead_of ahead))) p.old result p.new }
    ensures leaves { but_operands p.new ≡ but_operands p.old }
{
    let Some(t) = ahead else {
        return keyword_side(p, None);
    };
    if let Some(i) = p.instruction_at(t) {
        return instruction_side(p, i);
    }
    let k = p.keyword_at(t);
    keyword_side(p, k)
}

#[tactic(auto, using(crate::proofs::Firsts::rhs_steps), unfolding(rules::specs::Reading::assignment_rhs))]
pub fn assignment_rhs(p: &mut Parser) -> Result<Side, Fault>
    requires { Ready p.old }
    ensures runs { Runs R.assignment_rhs p.old result p.new }
    ensures leaves { but_operands p.new ≡ but_operands p.old }
{
    let ahead = p.lookahead()?;
    side_ahead(p, ahead)
}
