// Whether lent tables are well formed, by section 6 of docs/RULES.md: any text, any words and any counts may be lent.
// Each function is a clause of the definition, and tests in the definition's order, so that no loop goes along rows that are not there.
#![tactic(auto)]

mod attribute;
mod item;
pub mod lent;
mod letters;
mod operand;
mod owned;
mod seen;
pub mod sort;
mod statement;
mod table;

ghost use Rattle.std.specs.Prelude.{◌≡◌};
ghost use Rattle.rules.specs.Stored.{in_words};
ghost use Rattle.rules.specs.Rows.{item_length, statement_length, operand_length, attribute_length};
ghost use Rattle.wellformed.specs.Parts.{rows_ok, few as few_of, Whole, counted};
ghost use Rattle.rules.specs.WellFormed.{counts, tables_ok, rows_owned, well_formed};

use item::{items_ok, kinds_ok};
use lent::Lent;
use owned::{attributes_owned, operands_owned, statements_owned};
use packed::Packed;
use rules::Counts;
use table::table_ok;
use tables::rows::Table;
use tables::{ATTRIBUTE_LENGTH, ITEM_LENGTH, OPERAND_LENGTH, STATEMENT_LENGTH};

// Whether counts are within the tables' capacities, and what stands past the counted rows is 0.
#[tactic(auto, unfolding(rules::specs::WellFormed::tables_ok))]
fn tables_ok(
    lent: &Lent<&[u32]>,
    item_count: u64,
    statement_count: u64,
    operand_count: u64,
    attribute_count: u64,
) -> bool
    ensures { result ≡ tables_ok lent.now.items.now lent.now.statements.now lent.now.operands.now lent.now.attributes.now (counts item_count statement_count operand_count attribute_count) }
{
    table_ok(lent.items, ITEM_LENGTH, item_count)
        && table_ok(lent.statements, STATEMENT_LENGTH, statement_count)
        && table_ok(lent.operands, OPERAND_LENGTH, operand_count)
        && table_ok(lent.attributes, ATTRIBUTE_LENGTH, attribute_count)
}

// Whether the counted rows stand in reading order, each owned once.
#[tactic(auto, unfolding(rules::specs::WellFormed::rows_owned))]
fn rows_owned<T: Table>(items: T, statements: T, of: Counts) -> bool
    ensures { result ≡ rows_owned (T.words items) (T.words statements) (counts of.items of.statements of.operands of.attributes) }
{
    statements_owned(items, of.items, of.statements)
        && kinds_ok(items, of.items)
        && operands_owned(items, statements, of.items, of.operands)
        && attributes_owned(items, statements, of.items, of.attributes)
}

// Whether counts are up to 65,536.
#[tactic(auto, unfolding(crate::specs::Parts::few))]
fn few(items: usize, statements: usize, operands: usize, attributes: usize) -> bool
    ensures { result ≡ few_of items statements operands attributes }
{
    items <= 65536 && statements <= 65536 && operands <= 65536 && attributes <= 65536
}

// Whether the counted rows of a text and four tables are owned, and say what they may.
#[tactic(auto, unfolding(crate::specs::Parts::rows_ok))]
fn rows_ok<T: Table>(lent: &Lent<T>, of: Counts) -> bool
    ensures { result ≡ rows_ok lent.now.text.now (T.words lent.now.items) (T.words lent.now.statements) (T.words lent.now.operands) (T.words lent.now.attributes) (counts of.items of.statements of.operands of.attributes) }
{
    rows_owned(lent.items, lent.statements, of) && items_ok(lent, of.items)
}

// Whether a text and four tables with so many counted rows are well formed.
pub fn well_formed(
    text: &[u8],
    items: &[u32],
    statements: &[u32],
    operands: &[u32],
    attributes: &[u32],
    item_count: u64,
    statement_count: u64,
    operand_count: u64,
    attribute_count: u64,
) -> bool
    ensures { result ≡ well_formed text.now items.now statements.now operands.now attributes.now (counts item_count statement_count operand_count attribute_count) }
{
    if 65536 < text.len() {
        return false;
    }
    let lent = Lent {
        text,
        items,
        statements,
        operands,
        attributes,
    };
    if !tables_ok(
        &lent,
        item_count,
        statement_count,
        operand_count,
        attribute_count,
    ) {
        return false;
    }
    let of = Counts {
        items: item_count as u32,
        statements: statement_count as u32,
        operands: operand_count as u32,
        attributes: attribute_count as u32,
    };
    rows_ok(&lent, of)
}

// Whether a text and four tables that are bytes of whole rows, all of them counted, are well formed.
pub fn packed_well_formed(
    text: &[u8],
    items: &[u8],
    statements: &[u8],
    operands: &[u8],
    attributes: &[u8],
) -> bool
    requires { Whole item_length items.now × (Whole statement_length statements.now × (Whole operand_length operands.now × Whole attribute_length attributes.now)) }
    ensures { result ≡ well_formed text.now (in_words items.now) (in_words statements.now) (in_words operands.now) (in_words attributes.now) (counted items.now statements.now operands.now attributes.now) }
{
    if 65536 < text.len() {
        return false;
    }
    let item_count = items.len() / (ITEM_LENGTH * 4);
    let statement_count = statements.len() / (STATEMENT_LENGTH * 4);
    let operand_count = operands.len() / (OPERAND_LENGTH * 4);
    let attribute_count = attributes.len() / (ATTRIBUTE_LENGTH * 4);
    if !few(item_count, statement_count, operand_count, attribute_count) {
        return false;
    }
    let lent = Lent {
        text,
        items: Packed { bytes: items },
        statements: Packed { bytes: statements },
        operands: Packed { bytes: operands },
        attributes: Packed { bytes: attributes },
    };
    let of = Counts {
        items: item_count as u32,
        statements: statement_count as u32,
        operands: operand_count as u32,
        attributes: attribute_count as u32,
    };
    rows_ok(&lent, of)
}
