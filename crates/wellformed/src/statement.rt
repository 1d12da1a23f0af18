// Statement rows, each in an item whose statements begin at `first`.
ghost use Rattle.std.specs.Prelude.{◌≡◌, true, ◌≤◌, length};
ghost use Rattle.rules.specs.WellFormed.{name_ok, width_ok, number_ok, block_ok, arity as arity_in, operands_fit, attributes_fit, new_name, statement_ok, statements_ok};

use crate::attribute::attributes_ok;
use crate::lent::Lent;
use crate::letters::{name_in, new_name, no_span};
use crate::operand::{long, operands_ok, refers_to_block, width_fits};
use crate::seen::slot;
use crate::sort::{has_block, inside, is_assignment, is_condition};
use instructions::Instruction;
use rules::{Span, Statement, code};
use tables::letters;
use tables::rows::{Table, number_at, statement_at};

// How many statements are many.
const MANY: u32 = 64;

// Whether an assignment has a name that is new in its item, a condition none; a `fresh` name is known to be new.
#[tactic(auto, unfolding(rules::specs::WellFormed::name_ok))]
fn name_ok<T: Table>(
    text: &[u8],
    statements: T,
    first: u32,
    i: u32,
    fresh: bool,
    r: Statement,
) -> bool
    requires { fresh ≡ true → new_name text.now (T.words statements) first i ≡ true }
    ensures { result ≡ name_ok text.now (T.words statements) first i r }
{
    let name = r.name;
    if !is_assignment(r.code) {
        return no_span(name);
    }
    if !name_in(text, name) {
        return false;
    }
    if fresh {
        return true;
    }
    new_name(text, statements, first, i)
}

// Whether an assignment has a type or none, a condition none.
#[tactic(auto, unfolding(rules::specs::WellFormed::width_ok))]
fn width_ok(r: Statement) -> bool
    ensures { result ≡ width_ok r }
{
    if is_assignment(r.code) {
        return width_fits(r.width);
    }
    r.width == 0
}

// Whether only a block and a blockpc have a number.
#[tactic(auto, unfolding(rules::specs::WellFormed::number_ok))]
fn number_ok(r: Statement) -> bool
    ensures { result ≡ number_ok r }
{
    r.code == code::BLOCK || r.code == code::BLOCKPC || r.number == 0
}

// Whether a phi and a blockpc refer to a block before them, and the others to none.
#[tactic(auto, unfolding(rules::specs::WellFormed::block_ok))]
fn block_ok<T: Table>(statements: T, first: u32, i: u32, r: Statement) -> bool
    ensures { result ≡ block_ok (T.words statements) first i r }
{
    if has_block(r.code) {
        return refers_to_block(statements, first, i, r.block);
    }
    r.block == 0
}

// How many operands a statement has to have.
#[tactic(auto, unfolding(rules::specs::WellFormed::arity))]
fn arity<T: Table>(statements: T, r: Statement) -> u32
    ensures { result ≡ arity_in (T.words statements) r }
{
    let c = r.code;
    if let Some(instruction) = Instruction::of_code(c) {
        return instruction.arity() as u32;
    }
    if c == code::PHI {
        return number_at(statements, r.block);
    }
    if is_condition(c) {
        return 2;
    }
    0
}

// Whether a statement has as many operands as it has to, and they refer to assignments before it.
#[tactic(auto, unfolding(rules::specs::WellFormed::operands_fit))]
fn operands_fit<T: Table>(statements: T, operands: T, first: u32, i: u32, r: Statement) -> bool
    ensures { result ≡ operands_fit (T.words statements) (T.words operands) first i r }
{
    long(r.operands) == arity(statements, r)
        && operands_ok(statements, operands, first, i, r.operands)
}

// Whether an assignment has attributes of its own sort, a condition none.
#[tactic(auto, unfolding(rules::specs::WellFormed::attributes_fit))]
fn attributes_fit<T: Table>(text: &[u8], attributes: T, r: Statement) -> bool
    ensures { result ≡ attributes_fit text.now (T.words attributes) r }
{
    let s = r.attributes;
    if !is_assignment(r.code) {
        return long(s) == 0;
    }
    attributes_ok(text, attributes, code::KNOWN_BITS, code::RANGE, s)
}

// Whether statement row i is well formed; a `fresh` name is known to be new.
#[tactic(auto, unfolding(rules::specs::WellFormed::statement_ok))]
fn statement_ok<T: Table>(lent: &Lent<T>, first: u32, i: u32, fresh: bool, r: Statement) -> bool
    requires { fresh ≡ true → new_name lent.now.text.now (T.words lent.now.statements) first i ≡ true }
    ensures { result ≡ statement_ok lent.now.text.now (T.words lent.now.statements) (T.words lent.now.operands) (T.words lent.now.attributes) first i r }
{
    inside(1, code::BLOCKPC, r.code)
        && name_ok(lent.text, lent.statements, first, i, fresh, r)
        && width_ok(r)
        && number_ok(r)
        && block_ok(lent.statements, first, i, r)
        && operands_fit(lent.statements, lent.operands, first, i, r)
        && attributes_fit(lent.text, lent.attributes, r)
}

// Whether the statement rows of an item are well formed; once a row is tested, its name's slot has a mark.
fn statements_in<T: Table>(lent: &Lent<T>, s: Span, seen: &mut [u8]) -> bool
    requires { 1 ≤ length seen.old }
    ensures { result ≡ statements_ok lent.now.text.now (T.words lent.now.statements) (T.words lent.now.operands) (T.words lent.now.attributes) s }
{
    let first = s.first;
    for i in first..s.past {
        let r = statement_at(lent.statements, i);
        let k = slot(letters(lent.text, r.name.first, r.name.past), seen.len());
        let fresh = seen[k] == 0;
        if !statement_ok(lent, first, i, fresh, r) {
            return false;
        }
        seen[k] = 1;
    }
    true
}

// The same with N marks.
fn with_marks<T: Table, const N: usize>(lent: &Lent<T>, s: Span) -> bool
    requires { (1 ≤ N) × (N ≤ 65536) }
    ensures { result ≡ statements_ok lent.now.text.now (T.words lent.now.statements) (T.words lent.now.operands) (T.words lent.now.attributes) s }
{
    let mut seen = [0u8; N];
    statements_in(lent, s, &mut seen)
}

// Whether the statement rows of an item are well formed.
pub fn statements_ok<T: Table>(lent: &Lent<T>, s: Span) -> bool
    ensures { result ≡ statements_ok lent.now.text.now (T.words lent.now.statements) (T.words lent.now.operands) (T.words lent.now.attributes) s }
{
    if long(s) < MANY {
        return with_marks::<T, 256>(lent, s);
    }
    with_marks::<T, 65536>(lent, s)
}
