// Items: replacements, left-hand sides and right-hand sides, up to the end of the text.
ghost use Rattle.std.specs.Prelude.{◌≡◌, not, cond, eqb};
ghost use Rattle.rules.specs.Keywords as word;
ghost use Rattle.rules.specs.Keywords.{keyword_number};
ghost use Rattle.rules.specs.Reading as R;
ghost use Rattle.parser.specs.Stands.{Ready, Runs, ahead_of};

use crate::attributes::root_attributes;
use crate::operands::operand;
use crate::statements::{since, statements_of};
use parser::{Fault, Parser};
use rules::keyword::Keyword;
use rules::{Entry, Item, Span, Spot, code};

// What an item's row says of its last line: its kind, how many statement rows stand before its `infer` or `cand` line, and the row of the value inferred, if any.
#[derive(Clone, Copy)]
struct Line {
    kind: u32,
    middle: u32,
    infer: u32,
}

// The row of an item, claimed last of all; the scope ends with it.
#[tactic(auto, using(parser::proofs::Steps::steps), unfolding(rules::specs::Reading::close_item, parser::specs::Stands::world))]
fn close_item(p: &mut Parser, line: Line, operands: Span, attributes: Span) -> Result<(), Fault>
    ensures { Runs (R.close_item line.kind line.middle line.infer operands attributes) p.old result p.new }
{
    let past = p.counts.statements;
    p.claim_item(Item {
        kind: line.kind,
        statements: Span {
            first: p.scope,
            past,
        },
        middle: line.middle,
        infer: line.infer,
        operands,
        attributes,
    })?;
    p.end_scope();
    Ok(())
}

// `infer`, a value and root attributes: the value's row.
#[tactic(auto, using(parser::proofs::Steps::steps), unfolding(rules::specs::Reading::infer))]
fn infer(p: &mut Parser) -> Result<u32, Fault>
    requires { Ready p.old }
    ensures { Runs R.infer p.old result p.new }
{
    p.ident(Keyword::Infer)?;
    let row = p.value()?;
    root_attributes(p)?;
    Ok(row)
}

// `result` and an operand, which close an item.
#[tactic(auto, using(parser::proofs::Steps::steps), unfolding(rules::specs::Reading::result, parser::specs::Stands::world))]
fn result_line(p: &mut Parser, line: Line, attributes: Span) -> Result<(), Fault>
    requires { Ready p.old }
    ensures { Runs (R.result line.kind line.middle line.infer attributes) p.old result p.new }
{
    p.ident(Keyword::Result)?;
    let first_operand = p.counts.operands;
    operand(p)?;
    let operands = since(first_operand, p.counts.operands);
    close_item(p, line, operands, attributes)
}

// `cand`, two operands and root attributes.
#[tactic(auto, using(parser::proofs::Steps::steps), unfolding(rules::specs::Reading::cand, parser::specs::Stands::world))]
fn cand(p: &mut Parser, middle: u32) -> Result<(), Fault>
    requires { Ready p.old }
    ensures { Runs (R.cand middle) p.old result p.new }
{
    p.ident(Keyword::Cand)?;
    let first_operand = p.counts.operands;
    operand(p)?;
    operand(p)?;
    let operands = since(first_operand, p.counts.operands);
    let first_attribute = p.counts.attributes;
    root_attributes(p)?;
    let attributes = since(first_attribute, p.counts.attributes);
    let line = Line {
        kind: code::CANDIDATE,
        middle,
        infer: 0,
    };
    close_item(p, line, operands, attributes)
}

// An `infer` line, statements and a `result` line.
#[tactic(auto, using(parser::proofs::Steps::steps), unfolding(rules::specs::Reading::infer_and_result, parser::specs::Stands::world))]
fn infer_and_result(p: &mut Parser, middle: u32) -> Result<(), Fault>
    requires { Ready p.old }
    ensures { Runs (R.infer_and_result middle) p.old result p.new }
{
    let first_attribute = p.counts.attributes;
    let infer = infer(p)?;
    let attributes = since(first_attribute, p.counts.attributes);
    statements_of(p)?;
    let line = Line {
        kind: code::INFER_RESULT,
        middle,
        infer,
    };
    result_line(p, line, attributes)
}

// An `infer` line, statements and a `result` line, or a `cand` line, by the keyword that comes next.
#[tactic(auto, using(parser::proofs::Steps::steps))]
fn line_by(p: &mut Parser, middle: u32, k: Option<Keyword>) -> Result<(), Fault>
    requires { Ready p.old }
    ensures { Runs (cond (eqb (keyword_number k) word.infer) (R.infer_and_result middle) (R.cand middle)) p.old result p.new }
{
    match k {
        Some(Keyword::Infer) => infer_and_result(p, middle),
        _ => cand(p, middle),
    }
}

// Statements, and either an `infer` line, statements and a `result` line, or a `cand` line.
#[tactic(auto, using(parser::proofs::Steps::steps), unfolding(rules::specs::Reading::replacement, parser::specs::Stands::world))]
fn replacement(p: &mut Parser) -> Result<(), Fault>
    requires { Ready p.old }
    ensures { Runs R.replacement p.old result p.new }
{
    statements_of(p)?;
    let middle = p.counts.statements;
    let k = p.keyword_ahead()?;
    line_by(p, middle, k)
}

// Statements and an `infer` line.
#[tactic(auto, using(parser::proofs::Steps::steps), unfolding(rules::specs::Reading::left_side, parser::specs::Stands::world))]
fn left_side(p: &mut Parser) -> Result<(), Fault>
    requires { Ready p.old }
    ensures { Runs R.left_side p.old result p.new }
{
    statements_of(p)?;
    let past = p.counts.statements;
    let first_attribute = p.counts.attributes;
    let infer = infer(p)?;
    let attributes = since(first_attribute, p.counts.attributes);
    let none = p.counts.operands;
    let operands = since(none, p.counts.operands);
    let line = Line {
        kind: code::LEFT_HAND_SIDE,
        middle: past,
        infer,
    };
    close_item(p, line, operands, attributes)
}

// Statements and a `result` line.
#[tactic(auto, using(parser::proofs::Steps::steps), unfolding(rules::specs::Reading::right_side, parser::specs::Stands::world))]
fn right_side(p: &mut Parser) -> Result<(), Fault>
    requires { Ready p.old }
    ensures { Runs R.right_side p.old result p.new }
{
    statements_of(p)?;
    let past = p.counts.statements;
    let none = p.counts.attributes;
    let attributes = since(none, p.counts.attributes);
    let line = Line {
        kind: code::RIGHT_HAND_SIDE,
        middle: past,
        infer: 0,
    };
    result_line(p, line, attributes)
}

// An item of an entry point.
#[tactic(auto, unfolding(rules::specs::Reading::item_of))]
fn item(p: &mut Parser, entry: Entry) -> Result<(), Fault>
    requires { Ready p.old }
    ensures { Runs (R.item_of entry) p.old result p.new }
{
    match entry {
        Entry::Replacements => replacement(p),
        Entry::LeftHandSides => left_side(p),
        Entry::RightHandSides => right_side(p),
    }
}

// Whether there is a token.
fn is_token(ahead: Option<Spot>) -> bool
    ensures { result ≡ not (eqb (ahead_of ahead).kind 0) }
{
    match ahead {
        Some(t) => t.kind != 0,
        None => false,
    }
}

// Whether anything comes next.
#[tactic(auto, using(parser::proofs::Steps::steps), unfolding(rules::specs::Reading::item_ahead))]
fn item_ahead(p: &mut Parser) -> Result<bool, Fault>
    ensures { Runs R.item_ahead p.old result p.new }
{
    let ahead = p.lookahead()?;
    Ok(is_token(ahead))
}

// Items of an entry point up to the end of the text.
pub fn items_of(p: &mut Parser, entry: Entry) -> Result<(), Fault>
    requires { Ready p.old }
    ensures { Runs (R.items entry) p.old result p.new }
{
    while item_ahead(p)? {
        item(p, entry)?;
    }
    Ok(())
}
