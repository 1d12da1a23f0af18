// Statements, a line each.
ghost use Rattle.std.specs.Prelude.{◌≡◌, false, [], ◌+◌, ◌-◌, ◌≤◌};
ghost use Rattle.rules.specs.Syntax.{block, phi, instruction, pc, blockpc};
ghost use Rattle.rules.specs.Rows.{statement_at};
ghost use Rattle.rules.specs.View.{along};
ghost use Rattle.rules.specs.Printing.{side, line};
ghost use Rattle.rules.specs.WellFormed.{is_condition};
ghost use Rattle.output.specs.Writing.{Writes};
ghost use Rattle.pieces.specs.Sources.{name_in, operand_in};
ghost use Rattle.lines.specs.Sources.{side_in, said_in, statement_in};

use instructions::put_instruction;
use output::writer::Writer;
use pieces::Source;
use pieces::operand::{put_number, put_typing};
use rules::{Statement, code};
use tables::rows::statement_at;

// Writes `block` and a number.
fn put_block(number: u32, writer: &mut Writer)
    ensures { Writes (side (block number) []) writer.old writer.new }
{
    writer.put(b"block ");
    put_number(number, writer);
}

// Writes `phi`, the name of a block and operands.
fn put_phi(source: &Source, row: Statement, writer: &mut Writer)
    ensures { Writes (side (phi (name_in source.now row.block) (along (operand_in source.now) row.operands)) []) writer.old writer.new }
{
    writer.put(b"phi ");
    source.put_name(row.block, writer);
    source.put_further(row.operands, writer);
}

// Writes the name of the instruction of a statement's code and its operands.
fn put_operation(source: &Source, row: Statement, writer: &mut Writer)
    ensures { Writes (side (instruction (row.code - 1) (along (operand_in source.now) row.operands)) []) writer.old writer.new }
{
    let place = row.code.saturating_sub(1) as usize;
    writer.append(|rest| put_instruction(place, rest));
    source.put_operands(row.operands, writer);
}

// Writes what stands right of `=`.
fn put_side(source: &Source, row: Statement, writer: &mut Writer)
    ensures { Writes (side (side_in source.now row) []) writer.old writer.new }
{
    match row.code {
        code::VAR => writer.put(b"var"),
        code::BLOCK => put_block(row.number, writer),
        code::PHI => put_phi(source, row, writer),
        code::RESERVEDINST => writer.put(b"reservedinst"),
        code::RESERVEDCONST => writer.put(b"reservedconst"),
        _ => put_operation(source, row, writer),
    }
}

// Writes an assignment's line.
fn put_assignment(source: &Source, row: Statement, writer: &mut Writer)
    requires { is_condition row.code ≡ false }
    ensures { Writes (line (said_in source.now row) []) writer.old writer.new }
{
    source.put_letters(row.name, writer);
    put_typing(row.width, writer);
    writer.put(b" = ");
    put_side(source, row, writer);
    source.put_attributes(row.attributes, writer);
    writer.put(b"\n");
}

// Writes a path condition's line.
fn put_pc(source: &Source, row: Statement, writer: &mut Writer)
    requires { row.operands.first ≤ 65536 }
    ensures { Writes (line (pc (operand_in source.now row.operands.first) (operand_in source.now (row.operands.first + 1))) []) writer.old writer.new }
{
    writer.put(b"pc ");
    source.put_pair(row.operands.first, writer);
    writer.put(b"\n");
}

// Writes a block's path condition's line.
fn put_blockpc(source: &Source, row: Statement, writer: &mut Writer)
    requires { row.operands.first ≤ 65536 }
    ensures { Writes (line (blockpc (name_in source.now row.block) row.number (operand_in source.now row.operands.first) (operand_in source.now (row.operands.first + 1))) []) writer.old writer.new }
{
    writer.put(b"blockpc ");
    source.put_name(row.block, writer);
    writer.put(b" ");
    put_number(row.number, writer);
    source.put_pair(row.operands.first, writer);
    writer.put(b"\n");
}

// Writes the line of statement row i.
pub fn put_line(source: &Source, i: u32, writer: &mut Writer)
    requires { (statement_at source.now.statements.now i).operands.first ≤ 65536 }
    ensures { Writes (line (statement_in source.now i) []) writer.old writer.new }
{
    let row = statement_at(source.statements, i);
    match row.code {
        code::PC => put_pc(source, row, writer),
        code::BLOCKPC => put_blockpc(source, row, writer),
        _ => put_assignment(source, row, writer),
    }
}
