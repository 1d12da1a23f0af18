// The four lent tables: claims through one row writer, rows by value (`rows`), clearing.
#![tactic(auto)]

pub mod rows;

ghost use Rattle.std.specs.Prelude.{◌≡◌, ◌≤◌, ◌<◌, length, take};
ghost use Rattle.rules.specs.Bytes.{part};
ghost use Rattle.rules.specs.Answers.{padded};
ghost use Rattle.rules.specs.Rows as R;
ghost use Rattle.tables.specs.Stands.{Claimed};

use rules::{Attribute, Item, Operand, Statement};

// How many words a row of each table has.
pub const ITEM_LENGTH: usize = 9;

pub const STATEMENT_LENGTH: usize = 10;

pub const OPERAND_LENGTH: usize = 7;

pub const ATTRIBUTE_LENGTH: usize = 11;

// Whether there is room for a row behind `count` others; where there is, the row's words are stored there.
fn claim(table: &mut [u32], count: u32, row: &[u32]) -> bool
    requires { 1 ≤ length row.now }
    ensures { Claimed table.old count row.now result table.new }
{
    if table.len() / row.len() <= count as usize {
        return false;
    }
    if 65536 <= count {
        return false;
    }
    let start = count as usize * row.len();
    table[start..start + row.len()].copy_from_slice(row);
    true
}

// Whether there is room for an item's row behind `count` others; where there is, it is stored there.
pub fn claim_item(items: &mut [u32], count: u32, row: Item) -> bool
    ensures { Claimed items.old count (R.item_words row) result items.new }
{
    claim(
        items,
        count,
        &[
            row.kind,
            row.statements.first,
            row.statements.past,
            row.middle,
            row.infer,
            row.operands.first,
            row.operands.past,
            row.attributes.first,
            row.attributes.past,
        ],
    )
}

// Whether there is room for a statement's row behind `count` others; where there is, it is stored there.
pub fn claim_statement(statements: &mut [u32], count: u32, row: Statement) -> bool
    ensures { Claimed statements.old count (R.statement_words row) result statements.new }
{
    claim(
        statements,
        count,
        &[
            row.code,
            row.name.first,
            row.name.past,
            row.width,
            row.number,
            row.block,
            row.operands.first,
            row.operands.past,
            row.attributes.first,
            row.attributes.past,
        ],
    )
}

// Whether there is room for an operand's row behind `count` others; where there is, it is stored there.
pub fn claim_operand(operands: &mut [u32], count: u32, row: Operand) -> bool
    ensures { Claimed operands.old count (R.operand_words row) result operands.new }
{
    claim(
        operands,
        count,
        &[
            row.code, row.row, row.width, row.bits.a, row.bits.b, row.bits.c, row.bits.d,
        ],
    )
}

// Whether there is room for an attribute's row behind `count` others; where there is, it is stored there.
pub fn claim_attribute(attributes: &mut [u32], count: u32, row: Attribute) -> bool
    ensures { Claimed attributes.old count (R.attribute_words row) result attributes.new }
{
    claim(
        attributes,
        count,
        &[
            row.code,
            row.pattern.first,
            row.pattern.past,
            row.low.a,
            row.low.b,
            row.low.c,
            row.low.d,
            row.high.a,
            row.high.b,
            row.high.c,
            row.high.d,
        ],
    )
}

// The part of a text from a byte up to another.
pub fn letters(text: &[u8], first: u32, past: u32) -> &[u8]
    ensures { result.now ≡ part text.now first past }
{
    let a = first as usize;
    let b = past as usize;
    if b < a {
        return &text[..0];
    }
    if b <= text.len() {
        return &text[a..b];
    }
    if a <= text.len() {
        return &text[a..];
    }
    &text[..0]
}

// Zeros from a word on.
pub fn clear(table: &mut [u32], from: usize)
    ensures { table.new ≡ padded (length table.old) (take from table.old) }
{
    if from < table.len() {
        table[from..].fill(0);
    }
}
