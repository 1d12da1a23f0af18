// Attributes, each in parentheses behind a space.
ghost use Rattle.std.specs.Prelude.{[], ◌++◌};
ghost use Rattle.rules.specs.Syntax.{sign_bits, range};
ghost use Rattle.rules.specs.Rows.{letters_of, bits_of};
ghost use Rattle.rules.specs.View.{along};
ghost use Rattle.rules.specs.Printing.{attribute, root_attribute, attributes as attribute_list};
ghost use Rattle.output.specs.Writing.{Writes};
ghost use Rattle.pieces.specs.Sources.{attribute_in, root_attribute_in};

use crate::Source;
use crate::operand::put_integer;
use output::writer::Writer;
use rules::{Span, Words, code};
use tables::rows::attribute_at;

// Writes `signBits=` and a number.
fn put_sign_bits(number: Words, writer: &mut Writer)
    ensures { Writes (attribute (sign_bits (bits_of number)) []) writer.old writer.new }
{
    writer.put(b"signBits=");
    put_integer(number, writer);
}

// Writes `range=` and two numbers, between a bracket and a parenthesis.
fn put_range(low: Words, high: Words, writer: &mut Writer)
    ensures { Writes (attribute (range (bits_of low) (bits_of high)) []) writer.old writer.new }
{
    writer.put(b"range=[");
    put_integer(low, writer);
    writer.put(b",");
    put_integer(high, writer);
    writer.put(b")");
}

impl Source<'_> {
    // Writes a word and the letters of a pattern.
    fn put_pattern(&self, word: &[u8], pattern: Span, writer: &mut Writer)
        ensures { Writes (word.now ++ letters_of self.now.text.now pattern) writer.old writer.new }
    {
        writer.put(word);
        self.put_letters(pattern, writer);
    }

    // Writes what stands between the parentheses of attribute row i.
    fn put_attribute(&self, i: u32, writer: &mut Writer)
        ensures { Writes (attribute (attribute_in self.now i) []) writer.old writer.new }
    {
        let row = attribute_at(self.attributes, i);
        match row.code {
            code::KNOWN_BITS => self.put_pattern(b"knownBits=", row.pattern, writer),
            code::POWER_OF_TWO => writer.put(b"powerOfTwo"),
            code::NEGATIVE => writer.put(b"negative"),
            code::NON_NEGATIVE => writer.put(b"nonNegative"),
            code::NON_ZERO => writer.put(b"nonZero"),
            code::HAS_EXTERNAL_USES => writer.put(b"hasExternalUses"),
            code::SIGN_BITS => put_sign_bits(row.low, writer),
            _ => put_range(row.low, row.high, writer),
        }
    }

    // Writes what stands between the parentheses of attribute row i, which is a root's.
    fn put_root_attribute(&self, i: u32, writer: &mut Writer)
        ensures { Writes (root_attribute (root_attribute_in self.now i) []) writer.old writer.new }
    {
        let row = attribute_at(self.attributes, i);
        if row.code == code::DEMANDED_BITS {
            self.put_pattern(b"demandedBits=", row.pattern, writer);
        } else {
            writer.put(b"harvestedFromUse");
        }
    }

    // Writes the attribute rows of a span, each in parentheses behind a space.
    pub fn put_attributes(&self, span: Span, writer: &mut Writer)
        ensures { Writes (attribute_list attribute (along (attribute_in self.now) span) []) writer.old writer.new }
    {
        for i in span.first..span.past {
            writer.put(b" (");
            self.put_attribute(i, writer);
            writer.put(b")");
        }
    }

    // Writes the attribute rows of a span, which are a root's, each in parentheses behind a space.
    pub fn put_root_attributes(&self, span: Span, writer: &mut Writer)
        ensures { Writes (attribute_list root_attribute (along (root_attribute_in self.now) span) []) writer.old writer.new }
    {
        for i in span.first..span.past {
            writer.put(b" (");
            self.put_root_attribute(i, writer);
            writer.put(b")");
        }
    }
}
