// Closing lines.
ghost use Rattle.std.specs.Prelude.{[], ◌+◌, ◌≤◌};
ghost use Rattle.rules.specs.View.{along};
ghost use Rattle.rules.specs.Printing.{infer_line, result_line, cand_line};
ghost use Rattle.output.specs.Writing.{Writes};
ghost use Rattle.pieces.specs.Sources.{name_in, operand_in, root_attribute_in};

use output::writer::Writer;
use pieces::Source;
use rules::Span;

// Writes the line of `infer`, which names a statement row and has the attribute rows of a span.
pub fn put_infer(source: &Source, row: u32, span: Span, writer: &mut Writer)
    ensures { Writes (infer_line (name_in source.now row) (along (root_attribute_in source.now) span) []) writer.old writer.new }
{
    writer.put(b"infer ");
    source.put_name(row, writer);
    source.put_root_attributes(span, writer);
    writer.put(b"\n");
}

// Writes the line of `result`, which has operand row i.
pub fn put_result(source: &Source, i: u32, writer: &mut Writer)
    ensures { Writes (result_line (operand_in source.now i) []) writer.old writer.new }
{
    writer.put(b"result ");
    source.put_operand(i, writer);
    writer.put(b"\n");
}

// Writes the line of `cand`, which has operand rows i and i + 1 and the attribute rows of a span.
pub fn put_cand(source: &Source, i: u32, span: Span, writer: &mut Writer)
    requires { i ≤ 65536 }
    ensures { Writes (cand_line (operand_in source.now i) (operand_in source.now (i + 1)) (along (root_attribute_in source.now) span) []) writer.old writer.new }
{
    writer.put(b"cand ");
    source.put_pair(i, writer);
    source.put_root_attributes(span, writer);
    writer.put(b"\n");
}
