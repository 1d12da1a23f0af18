// Statements: assignments, `pc` and `blockpc`.
ghost use Rattle.std.specs.Prelude.{◌≡◌, ◌||◌, cond, eqb};
ghost use Rattle.rules.specs.Keywords as word;
ghost use Rattle.rules.specs.Tokens.{val_name};
ghost use Rattle.rules.specs.Keywords.{keyword_number};
ghost use Rattle.rules.specs.Rows.{◌up_to◌};
ghost use Rattle.rules.specs.Reading as R;
ghost use Rattle.reader.specs.Roots.{statement_by};
ghost use Rattle.parser.specs.Stands.{Ready, Runs, ahead_of, lent_words};

use crate::attributes::attributes_of;
use crate::operands::operand;
use crate::sides::{assignment_rhs, plain};
use parser::{Fault, Parser};
use rules::keyword::Keyword;
use rules::{Side, Span, Spot, Statement, code, kind};

// The rows that a table has had since it had so many: up to those that are counted now.
pub(crate) fn since(first: u32, past: u32) -> Span
    ensures { result ≡ first up_to past }
{
    Span { first, past }
}

// A name, its type if any, '=', the right side and attributes; the name enters scope with the row.
#[tactic(auto, using(parser::proofs::Steps::steps), unfolding(rules::specs::Reading::assignment, parser::specs::Stands::world))]
fn assignment(p: &mut Parser) -> Result<(), Fault>
    requires { Ready p.old }
    ensures runs { Runs R.assignment p.old result p.new }
    ensures leaves { p.new.items.now ≡ p.old.items.now }
{
    let name = p.new_name()?;
    let width = p.type_if_any()?;
    p.expect(kind::EQ)?;
    let first_operand = p.counts.operands;
    let side = assignment_rhs(p)?;
    let operands = since(first_operand, p.counts.operands);
    let first_attribute = p.counts.attributes;
    attributes_of(p)?;
    let attributes = since(first_attribute, p.counts.attributes);
    p.claim_statement(Statement {
        code: side.code,
        name: Span {
            first: name.first,
            past: name.past,
        },
        width,
        number: side.number,
        block: side.block,
        operands,
        attributes,
    })
}

// Two operands, and the row of a condition: what stands in a right side's place is its code, its number and its block.
#[tactic(auto, using(parser::proofs::Steps::steps), unfolding(rules::specs::Reading::condition, parser::specs::Stands::world))]
fn condition(p: &mut Parser, side: Side) -> Result<(), Fault>
    requires { Ready p.old }
    ensures runs { Runs (R.condition side.code side.number side.block) p.old result p.new }
    ensures leaves { p.new.items.now ≡ p.old.items.now }
{
    let first_operand = p.counts.operands;
    operand(p)?;
    operand(p)?;
    let operands = since(first_operand, p.counts.operands);
    let none = p.counts.attributes;
    let attributes = since(none, p.counts.attributes);
    p.claim_statement(Statement {
        code: side.code,
        name: Span { first: 0, past: 0 },
        width: 0,
        number: side.number,
        block: side.block,
        operands,
        attributes,
    })
}

// `pc` and a condition.
#[tactic(auto, using(parser::proofs::Steps::steps), unfolding(rules::specs::Reading::pc))]
fn pc(p: &mut Parser) -> Result<(), Fault>
    requires { Ready p.old }
    ensures runs { Runs R.pc p.old result p.new }
    ensures leaves { p.new.items.now ≡ p.old.items.now }
{
    p.token()?;
    condition(p, plain(code::PC))
}

// `blockpc`, a block in scope, a number and a condition.
#[tactic(auto, using(parser::proofs::Steps::steps), unfolding(rules::specs::Reading::blockpc))]
fn blockpc(p: &mut Parser) -> Result<(), Fault>
    requires { Ready p.old }
    ensures runs { Runs R.blockpc p.old result p.new }
    ensures leaves { p.new.items.now ≡ p.old.items.now }
{
    p.token()?;
    let block = p.block()?;
    let number = p.int_32()?;
    condition(
        p,
        Side {
            code: code::BLOCKPC,
            number,
            block,
        },
    )
}

// Whether a keyword begins a condition.
fn is_condition(k: Option<Keyword>) -> bool
    ensures { result ≡ (eqb (keyword_number k) word.pc || eqb (keyword_number k) word.blockpc) }
{
    matches!(k, Some(Keyword::Pc | Keyword::Blockpc))
}

// Whether a statement begins with a token: a name, `pc` or `blockpc`.
#[tactic(auto, unfolding(rules::specs::Reading::keyword_at))]
fn begins_statement(p: &Parser, ahead: Option<Spot>) -> bool
    ensures { result ≡ (eqb (ahead_of ahead).kind val_name || (eqb (R.keyword_at p.now.text.bytes.now (ahead_of ahead)) word.pc || eqb (R.keyword_at p.now.text.bytes.now (ahead_of ahead)) word.blockpc)) }
{
    match ahead {
        Some(t) => t.kind == kind::VAL_NAME || is_condition(p.keyword_at(t)),
        None => false,
    }
}

// Whether a statement comes next.
#[tactic(auto, using(crate::proofs::Looks::statement_steps), unfolding(rules::specs::Reading::statement_ahead))]
fn statement_ahead(p: &mut Parser) -> Result<bool, Fault>
    ensures runs { Runs R.statement_ahead p.old result p.new }
    ensures leaves { lent_words p.new ≡ lent_words p.old }
{
    let ahead = p.lookahead()?;
    Ok(begins_statement(p, ahead))
}

// A `pc` or else a `blockpc`, by the keyword that comes next.
#[tactic(auto, using(parser::proofs::Steps::steps))]
fn condition_by(p: &mut Parser, k: Option<Keyword>) -> Result<(), Fault>
    requires { Ready p.old }
    ensures runs { Runs (cond (eqb (keyword_number k) word.pc) R.pc R.blockpc) p.old result p.new }
    ensures leaves { p.new.items.now ≡ p.old.items.now }
{
    match k {
        Some(Keyword::Pc) => pc(p),
        _ => blockpc(p),
    }
}

// An assignment, a `pc` or a `blockpc`, by the token that comes next.
#[tactic(auto, using(crate::proofs::Looks::statement_ways), unfolding(rules::specs::Reading::keyword_at))]
fn statement_from(p: &mut Parser, ahead: Option<Spot>) -> Result<(), Fault>
    requires { Ready p.old }
    ensures runs { Runs (statement_by p.old.text.bytes.now (ahead_of ahead)) p.old result p.new }
    ensures leaves { p.new.items.now ≡ p.old.items.now }
{
    let Some(t) = ahead else {
        return condition_by(p, None);
    };
    if t.kind == kind::VAL_NAME {
        return assignment(p);
    }
    let k = p.keyword_at(t);
    condition_by(p, k)
}

// A statement; the rows before it may enter the index.
#[tactic(auto, using(parser::proofs::Steps::steps))]
fn statement(p: &mut Parser) -> Result<(), Fault>
    requires { Ready p.old }
    ensures runs { Runs R.statement p.old result p.new }
    ensures leaves { p.new.items.now ≡ p.old.items.now }
{
    p.hold();
    let ahead = p.lookahead()?;
    statement_from(p, ahead)
}

// Statements, as many as come one after another.
pub fn statements_of(p: &mut Parser) -> Result<(), Fault>
    requires { Ready p.old }
    ensures runs { Runs R.statements p.old result p.new }
    ensures leaves { p.new.items.now ≡ p.old.items.now }
{
    while statement_ahead(p)? {
        statement(p)?;
    }
    Ok(())
}
