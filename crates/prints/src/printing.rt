// Prints of lent tables. Nothing is written before its length is known, and past refusal 9 every word of the work area is 0 as the call returns.
ghost use Rattle.std.specs.Prelude.{◌≡◌, List, ℕ, length};
ghost use Rattle.rules.specs.Prints.{PrintEnds, Prints, fitting};
ghost use Rattle.rules.specs.Results.{print_answer};
ghost use Rattle.rules.specs.WellFormed.{counts};
ghost use Rattle.listing.specs.Listing.{none};
ghost use Rattle.listing.specs.Work.{marks_of};
ghost use Rattle.printer.specs.Contract.{Prepared, Owned};
ghost use Rattle.printer.specs.Rows.{items_text};

use pieces::Source;
use printer::{measure, put_items};
use rules::{Reason, Refusal};
use tables::clear;
use wellformed::well_formed;

// Prints the first `count` items, whose statements are the first `rows`, where the output is long enough for all of them.
fn print_items(
    text: &[u8],
    items: &[u32],
    statements: &[u32],
    operands: &[u32],
    attributes: &[u32],
    count: u32,
    rows: u32,
    work: &mut [u32],
    output: &mut [u8],
) -> Result<u64, Refusal>
    requires owned { Owned items.now statements.now operands.now count rows }
    requires prepared { (w : List ℕ) → length w ≡ length work.old → marks_of w rows ≡ none → Prepared text.now statements.now operands.now rows w }
    ensures { PrintEnds (fitting (items_text text.now items.now statements.now operands.now attributes.now count rows) (length output.old)) work.old output.old (print_answer result) work.new output.new }
{
    clear(work, 0);
    let source = Source {
        text,
        statements,
        operands,
        attributes,
    };
    let bytes = measure(&source, items, work, count, rows, output);
    if output.len() < bytes {
        clear(work, 0);
        return Err(Refusal {
            reason: Reason::OutputTooShort,
            place: bytes as u64,
        });
    }
    put_items(&source, items, work, count, rows, output);
    clear(work, 0);
    Ok(bytes as u64)
}

// Prints the items of tables with so many rows counted.
pub fn print(
    text: &[u8],
    items: &[u32],
    statements: &[u32],
    operands: &[u32],
    attributes: &[u32],
    item_count: u64,
    statement_count: u64,
    operand_count: u64,
    attribute_count: u64,
    work: &mut [u32],
    output: &mut [u8],
) -> Result<u64, Refusal>
    ensures { Prints text.now items.now statements.now operands.now attributes.now (counts item_count statement_count operand_count attribute_count) work.old output.old (print_answer result) work.new output.new }
{
    if !well_formed(
        text,
        items,
        statements,
        operands,
        attributes,
        item_count,
        statement_count,
        operand_count,
        attribute_count,
    ) {
        return Err(Refusal {
            reason: Reason::NotWellFormed,
            place: 0,
        });
    }
    let words = 3 * statement_count + operand_count + 1;
    if (work.len() as u64) < words {
        return Err(Refusal {
            reason: Reason::WorkTooShort,
            place: words,
        });
    }
    print_items(
        text,
        items,
        statements,
        operands,
        attributes,
        item_count as u32,
        statement_count as u32,
        work,
        output,
    )
}
