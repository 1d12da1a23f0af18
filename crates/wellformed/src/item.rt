// Item rows: their kinds and closing lines.
ghost use Rattle.std.specs.Prelude.{◌≡◌};
ghost use Rattle.rules.specs.WellFormed.{middle_ok, kind_ok, kinds_ok, infer_ok, closing_arity, closing_ok, roots_ok, item_ok, items_ok};

use crate::attribute::attributes_ok;
use crate::lent::Lent;
use crate::operand::{long, operands_ok, refers_to};
use crate::sort::{infers, inside};
use crate::statement::statements_ok;
use rules::{Item, code};
use tables::rows::{Table, item_at};

// Whether only an item with infer and result has statements behind its middle.
#[tactic(auto, unfolding(rules::specs::WellFormed::middle_ok))]
fn middle_ok(r: Item) -> bool
    ensures { result ≡ middle_ok r }
{
    if r.kind != code::INFER_RESULT {
        return r.middle == r.statements.past;
    }
    r.statements.first <= r.middle && r.middle <= r.statements.past
}

// Whether an item's kind is one of the four, and its middle where that kind has it.
#[tactic(auto, unfolding(rules::specs::WellFormed::kind_ok))]
fn kind_ok(r: Item) -> bool
    ensures { result ≡ kind_ok r }
{
    inside(code::INFER_RESULT, code::RIGHT_HAND_SIDE, r.kind) && middle_ok(r)
}

// Whether that is so of n items.
pub fn kinds_ok<T: Table>(items: T, n: u32) -> bool
    ensures { result ≡ kinds_ok (T.words items) n }
{
    (0..n).all(|i| kind_ok(item_at(items, i)))
}

// Whether an infer names an assignment before it, and an item without infer none.
#[tactic(auto, unfolding(rules::specs::WellFormed::infer_ok))]
fn infer_ok<T: Table>(statements: T, r: Item) -> bool
    ensures { result ≡ infer_ok (T.words statements) r }
{
    if !infers(r.kind) {
        return r.infer == 0;
    }
    refers_to(statements, r.statements.first, r.middle, r.infer)
}

// How many operands the closing lines of an item of kind k have.
#[tactic(auto, unfolding(rules::specs::WellFormed::closing_arity))]
fn closing_arity(k: u32) -> u32
    ensures { result ≡ closing_arity k }
{
    match k {
        code::CANDIDATE => 2,
        code::LEFT_HAND_SIDE => 0,
        _ => 1,
    }
}

// Whether an item's closing lines have so many operands, and they refer to assignments of the item.
#[tactic(auto, unfolding(rules::specs::WellFormed::closing_ok))]
fn closing_ok<T: Table>(statements: T, operands: T, r: Item) -> bool
    ensures { result ≡ closing_ok (T.words statements) (T.words operands) r }
{
    let s = r.statements;
    long(r.operands) == closing_arity(r.kind)
        && operands_ok(statements, operands, s.first, s.past, r.operands)
}

// Whether an infer or a cand has attributes of its own sort, a result none.
#[tactic(auto, unfolding(rules::specs::WellFormed::roots_ok))]
fn roots_ok<T: Table>(text: &[u8], attributes: T, r: Item) -> bool
    ensures { result ≡ roots_ok text.now (T.words attributes) r }
{
    let s = r.attributes;
    if r.kind == code::RIGHT_HAND_SIDE {
        return long(s) == 0;
    }
    attributes_ok(
        text,
        attributes,
        code::DEMANDED_BITS,
        code::HARVESTED_FROM_USE,
        s,
    )
}

// Whether an item's closing lines and statements are well formed.
#[tactic(auto, unfolding(rules::specs::WellFormed::item_ok))]
fn item_ok<T: Table>(lent: &Lent<T>, r: Item) -> bool
    ensures { result ≡ item_ok lent.now.text.now (T.words lent.now.statements) (T.words lent.now.operands) (T.words lent.now.attributes) r }
{
    infer_ok(lent.statements, r)
        && closing_ok(lent.statements, lent.operands, r)
        && roots_ok(lent.text, lent.attributes, r)
        && statements_ok(lent, r.statements)
}

// Whether n items are well formed.
pub fn items_ok<T: Table>(lent: &Lent<T>, n: u32) -> bool
    ensures { result ≡ items_ok lent.now.text.now (T.words lent.now.items) (T.words lent.now.statements) (T.words lent.now.operands) (T.words lent.now.attributes) n }
{
    (0..n).all(|i| item_ok(lent, item_at(lent.items, i)))
}
