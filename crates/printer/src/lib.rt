// Prints items: for each the lines of the statements that its roots reach, every statement after all it refers to, around its closing lines.
// A print into an empty output measures. Marks in the work area say which statements of an item are listed already; they are taken away at its end.
#![tactic(auto)]

mod closing;
mod listed;

ghost use Rattle.std.specs.Prelude.{◌≡◌, ◌≤◌, length};
ghost use Rattle.listing.specs.Listing.{none};
ghost use Rattle.listing.specs.Work.{marks_of};
ghost use Rattle.printer.specs.Contract.{PreparedFor, Own, Owned, Cleared, ItemPrinted, ItemsPrinted, Measured};

use closing::{put_first_closing, put_second_closing};
use listed::{put_before, put_between};
use listing::marks::clear_marks;
use output::writer::Writer;
use pieces::Source;
use rules::{Item, Span};
use tables::rows::item_at;

// Takes the marks of the rows of a span away.
fn clear_rows(work: &mut [u32], span: Span)
    requires first_le_past { span.first ≤ span.past }
    requires past_in_bounds { span.past ≤ length work.old }
    ensures { Cleared span work.old work.new }
{
    let first = span.first as usize;
    let past = span.past as usize;
    let rows = span.past - span.first;
    clear_marks(&mut work[first..past], rows);
}

// Writes an item.
fn put_item(source: &Source, work: &mut [u32], rows: u32, item: Item, writer: &mut Writer)
    requires prepared { PreparedFor source.now rows work.old }
    requires unmarked { marks_of work.old rows ≡ none }
    requires own { Own source.now.statements.now source.now.operands.now rows item }
    ensures { ItemPrinted source.now rows item writer.old work.new writer.new }
{
    put_before(source, work, rows, item, writer);
    put_first_closing(source, item, writer);
    put_between(source, work, rows, item, writer);
    put_second_closing(source, item, writer);
    clear_rows(work, item.statements);
}

// Writes the first `count` items, one after the other.
pub fn put_items(
    source: &Source,
    items: &[u32],
    work: &mut [u32],
    count: u32,
    rows: u32,
    out: &mut [u8],
) -> usize
    requires prepared { PreparedFor source.now rows work.old }
    requires unmarked { marks_of work.old rows ≡ none }
    requires owned { Owned items.now source.now.statements.now source.now.operands.now count rows }
    ensures { ItemsPrinted source.now.text.now items.now source.now.statements.now source.now.operands.now source.now.attributes.now count rows out.old work.new out.new result }
{
    let mut writer = Writer::new(out);
    for i in 0..count {
        let item = item_at(items, i);
        put_item(source, work, rows, item, &mut writer);
    }
    writer.count
}

// How many bytes the first `count` items take.
pub fn measure(
    source: &Source,
    items: &[u32],
    work: &mut [u32],
    count: u32,
    rows: u32,
    out: &mut [u8],
) -> usize
    requires prepared { PreparedFor source.now rows work.old }
    requires unmarked { marks_of work.old rows ≡ none }
    requires owned { Owned items.now source.now.statements.now source.now.operands.now count rows }
    ensures { Measured source.now.text.now items.now source.now.statements.now source.now.operands.now source.now.attributes.now count rows out.old work.new out.new result }
{
    put_items(source, items, work, count, rows, &mut out[..0])
}
