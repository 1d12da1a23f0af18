// Names of statements, as parts of the caller's text.
ghost use Rattle.std.specs.Prelude.{◌≡◌};
ghost use Rattle.rules.specs.Prints.{name_part};
ghost use Rattle.rules.specs.WellFormed.{counts};
ghost use Rattle.prints.specs.Parts.{IsPart};

use rules::Span;
use tables::rows::{code_at, name_at};
use wellformed::sort::is_assignment;
use wellformed::well_formed;

// The place of no name.
const NOWHERE: Span = Span { first: 0, past: 0 };

// Where the name of a statement row stands; empty where the tables are not well formed, and where the row is past the count or no assignment.
pub fn name_part(
    text: &[u8],
    items: &[u32],
    statements: &[u32],
    operands: &[u32],
    attributes: &[u32],
    item_count: u64,
    statement_count: u64,
    operand_count: u64,
    attribute_count: u64,
    row: u64,
) -> Span
    ensures { result ≡ name_part text.now items.now statements.now operands.now attributes.now (counts item_count statement_count operand_count attribute_count) row }
{
    if !well_formed(
        text,
        items,
        statements,
        operands,
        attributes,
        item_count,
        statement_count,
        operand_count,
        attribute_count,
    ) {
        return NOWHERE;
    }
    if statement_count <= row {
        return NOWHERE;
    }
    let i = row as u32;
    if !is_assignment(code_at(statements, i)) {
        return NOWHERE;
    }
    name_at(statements, i)
}

// The name of a statement row: that part of the text itself.
pub fn name<'a>(
    text: &'a [u8],
    items: &[u32],
    statements: &[u32],
    operands: &[u32],
    attributes: &[u32],
    item_count: u64,
    statement_count: u64,
    operand_count: u64,
    attribute_count: u64,
    row: u64,
) -> &'a [u8]
    ensures { IsPart text.entry (name_part text.now items.now statements.now operands.now attributes.now (counts item_count statement_count operand_count attribute_count) row) result }
{
    let part = name_part(
        text,
        items,
        statements,
        operands,
        attributes,
        item_count,
        statement_count,
        operand_count,
        attribute_count,
        row,
    );
    let first = part.first as usize;
    let past = part.past as usize;
    &text[first..past]
}
