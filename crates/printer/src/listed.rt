// The lines of what roots reach: each statement after all it refers to, without those that have a mark, which each gets as it is listed.
ghost use Rattle.std.specs.Prelude.{[], ◌∷◌, ◌≤◌, ◌<◌};
ghost use Rattle.rules.specs.Meaning.{All};
ghost use Rattle.listing.specs.References.{named};
ghost use Rattle.listing.specs.Roots.{first_roots, second_roots};
ghost use Rattle.printer.specs.Contract.{PreparedFor, RowsPrinted};

use lines::statement::put_line;
use listing::Graph;
use output::writer::Writer;
use pieces::Source;
use rules::{Item, code};
use tables::rows::operand_at;

// Writes the lines of what a statement row reaches.
fn put_listed(source: &Source, work: &mut [u32], rows: u32, root: u32, writer: &mut Writer)
    requires prepared { PreparedFor source.now rows work.old }
    requires root_lt_rows { root < rows }
    ensures { RowsPrinted source.now rows (root ∷ []) work.old writer.old work.new writer.new }
{
    let graph = Graph {
        statements: source.statements,
        operands: source.operands,
        rows,
    };
    let mut walk = graph.begin(work, root);
    while let Some(row) = graph.advance(work, &mut walk) {
        put_line(source, row, writer);
    }
}

// Writes the lines of what operand row i reaches; nothing for a constant.
fn put_root(source: &Source, work: &mut [u32], rows: u32, i: u32, writer: &mut Writer)
    requires prepared { PreparedFor source.now rows work.old }
    requires roots_inside { All (λ j. j < rows) (named source.now.operands.now i 1) }
    ensures { RowsPrinted source.now rows (named source.now.operands.now i 1) work.old writer.old work.new writer.new }
{
    let row = operand_at(source.operands, i);
    if row.code == code::VALUE {
        put_listed(source, work, rows, row.row, writer);
    }
}

// Writes the lines of what operand rows i and i + 1 reach.
fn put_both_roots(source: &Source, work: &mut [u32], rows: u32, i: u32, writer: &mut Writer)
    requires prepared { PreparedFor source.now rows work.old }
    requires i_bound { i ≤ 65536 }
    requires roots_inside { All (λ j. j < rows) (named source.now.operands.now i 2) }
    ensures { RowsPrinted source.now rows (named source.now.operands.now i 2) work.old writer.old work.new writer.new }
{
    put_root(source, work, rows, i, writer);
    put_root(source, work, rows, i + 1, writer);
}

// Writes the lines that stand before an item's first closing line.
pub fn put_before(source: &Source, work: &mut [u32], rows: u32, item: Item, writer: &mut Writer)
    requires prepared { PreparedFor source.now rows work.old }
    requires first_bound { item.operands.first ≤ 65536 }
    requires roots_inside { All (λ j. j < rows) (first_roots source.now.operands.now item) }
    ensures { RowsPrinted source.now rows (first_roots source.now.operands.now item) work.old writer.old work.new writer.new }
{
    if item.kind == code::INFER_RESULT {
        put_listed(source, work, rows, item.infer, writer);
        return;
    }
    let two_roots = item.kind == code::CANDIDATE;
    if two_roots {
        put_both_roots(source, work, rows, item.operands.first, writer);
        return;
    }
    if item.kind == code::LEFT_HAND_SIDE {
        put_listed(source, work, rows, item.infer, writer);
        return;
    }
    put_root(source, work, rows, item.operands.first, writer);
}

// Writes the lines that stand between an item's `infer` and `result`.
pub fn put_between(source: &Source, work: &mut [u32], rows: u32, item: Item, writer: &mut Writer)
    requires prepared { PreparedFor source.now rows work.old }
    requires roots_inside { All (λ j. j < rows) (second_roots source.now.operands.now item) }
    ensures { RowsPrinted source.now rows (second_roots source.now.operands.now item) work.old writer.old work.new writer.new }
{
    if item.kind == code::INFER_RESULT {
        put_root(source, work, rows, item.operands.first, writer);
    }
}
