// Operands: names, constants with their types, and lists of them.
ghost use Rattle.std.specs.Prelude.{[], ◌∷◌, ◌++◌, ◌+◌, ◌≤◌};
ghost use Rattle.rules.specs.Bytes.{bytes};
ghost use Rattle.rules.specs.Integers.{decimal};
ghost use Rattle.rules.specs.Syntax.{constant};
ghost use Rattle.rules.specs.Rows.{letters_of, bits_of};
ghost use Rattle.rules.specs.View.{along, typing_of};
ghost use Rattle.rules.specs.Printing.{typing, operand, further, operands as operand_list};
ghost use Rattle.output.specs.Writing.{Writes};
ghost use Rattle.pieces.specs.Sources.{name_in, operand_in};

use crate::Source;
use output::writer::Writer;
use rules::{Span, Words, code};
use tables::letters;
use tables::rows::{name_at, operand_at};
use wide::Wide;

// Writes a number in decimal.
pub fn put_number(n: u32, writer: &mut Writer)
    ensures { Writes (decimal n) writer.old writer.new }
{
    let number = Wide::from(n as u64);
    writer.append(|rest| number.write_decimal(rest));
}

// Writes the integer of four words in decimal.
pub fn put_integer(bits: Words, writer: &mut Writer)
    ensures { Writes (decimal (bits_of bits)) writer.old writer.new }
{
    let number = Wide::from(bits);
    writer.append(|rest| number.write_decimal(rest));
}

// Writes the type of a width behind a colon; nothing for the width 0.
pub fn put_typing(width: u32, writer: &mut Writer)
    ensures { Writes (typing (typing_of width) []) writer.old writer.new }
{
    if width != 0 {
        writer.put(b":i");
        put_number(width, writer);
    }
}

// Writes a constant and its type.
fn put_constant(bits: Words, width: u32, writer: &mut Writer)
    ensures { Writes (operand (constant (bits_of bits) (typing_of width)) []) writer.old writer.new }
{
    put_integer(bits, writer);
    put_typing(width, writer);
}

impl Source<'_> {
    // Writes the letters of a place in the text.
    pub fn put_letters(&self, place: Span, writer: &mut Writer)
        ensures { Writes (letters_of self.now.text.now place) writer.old writer.new }
    {
        writer.put(letters(self.text, place.first, place.past));
    }

    // Writes the name of a statement row.
    pub fn put_name(&self, row: u32, writer: &mut Writer)
        ensures { Writes (name_in self.now row) writer.old writer.new }
    {
        let place = name_at(self.statements, row);
        self.put_letters(place, writer);
    }

    // Writes operand row i: a name or a constant.
    pub fn put_operand(&self, i: u32, writer: &mut Writer)
        ensures { Writes (operand (operand_in self.now i) []) writer.old writer.new }
    {
        let row = operand_at(self.operands, i);
        if row.code == code::VALUE {
            self.put_name(row.row, writer);
        } else {
            put_constant(row.bits, row.width, writer);
        }
    }

    // Writes operand row i, a space and operand row i + 1.
    pub fn put_pair(&self, i: u32, writer: &mut Writer)
        requires { i ≤ 65536 }
        ensures { Writes (operand (operand_in self.now i) (bytes " " ++ operand (operand_in self.now (i + 1)) [])) writer.old writer.new }
    {
        self.put_operand(i, writer);
        writer.put(b" ");
        self.put_operand(i + 1, writer);
    }

    // Writes operand row i behind a comma.
    fn put_next(&self, i: u32, writer: &mut Writer)
        ensures { Writes (further (operand_in self.now i ∷ []) []) writer.old writer.new }
    {
        writer.put(b", ");
        self.put_operand(i, writer);
    }

    // Writes the operand rows of a span, each behind a comma.
    pub fn put_further(&self, span: Span, writer: &mut Writer)
        ensures { Writes (further (along (operand_in self.now) span) []) writer.old writer.new }
    {
        for i in span.first..span.past {
            self.put_next(i, writer);
        }
    }

    // Writes the operand rows of a span, the first behind a space and the others each behind a comma.
    pub fn put_operands(&self, span: Span, writer: &mut Writer)
        ensures { Writes (operand_list (along (operand_in self.now) span) []) writer.old writer.new }
    {
        if span.first < span.past {
            let others = Span {
                first: span.first + 1,
                past: span.past,
            };
            writer.put(b" ");
            self.put_operand(span.first, writer);
            self.put_further(others, writer);
        }
    }
}
