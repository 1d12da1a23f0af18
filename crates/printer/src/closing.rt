// The closing lines of an item, by its kind.
ghost use Rattle.std.specs.Prelude.{List, [], ℕ, ◌≤◌};
ghost use Rattle.rules.specs.View.{as_closing};
ghost use Rattle.rules.specs.Printing.{first_closing, second_closing};
ghost use Rattle.output.specs.Writing.{Writes};
ghost use Rattle.printer.specs.Contract.{closing_in};

use lines::closing::{put_cand, put_infer, put_result};
use output::writer::Writer;
use pieces::Source;
use rules::{Item, code};

// Writes an item's first closing line.
pub fn put_first_closing(source: &Source, item: Item, writer: &mut Writer)
    requires { item.operands.first ≤ 65536 }
    ensures { Writes (first_closing (closing_in source.now item) []) writer.old writer.new }
{
    match item.kind {
        code::INFER_RESULT => put_infer(source, item.infer, item.attributes, writer),
        code::CANDIDATE => put_cand(source, item.operands.first, item.attributes, writer),
        code::LEFT_HAND_SIDE => put_infer(source, item.infer, item.attributes, writer),
        _ => put_result(source, item.operands.first, writer),
    }
}

// Writes the `result` behind an item's `infer`; nothing where the item has no second closing line.
pub fn put_second_closing(source: &Source, item: Item, writer: &mut Writer)
    ensures { (attributes : List ℕ) → Writes (second_closing (as_closing source.now.text.now source.now.statements.now source.now.operands.now attributes item) []) writer.old writer.new }
{
    if item.kind == code::INFER_RESULT {
        put_result(source, item.operands.first, writer);
    }
}
