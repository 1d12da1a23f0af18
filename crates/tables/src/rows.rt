// Rows of the four tables from their words, with their fields by name, whatever the words stand in. Any words are a row; a word past the end of a table is
// 0. The rows that are read most are read by one test where they stand within their table.
ghost use Rattle.std.specs.Prelude.{◌≡◌, ℕ, ◌≤◌, ◌<◌, List, length, get_or};
ghost use Rattle.rules.specs.Rows.{field as field_of, span_at, words_at, item_at, statement_at, operand_at, attribute_at};

use crate::{ATTRIBUTE_LENGTH, ITEM_LENGTH, OPERAND_LENGTH, STATEMENT_LENGTH};
use rules::{Attribute, Item, Operand, Span, Statement, Words};

// A table that is lent: its words stand in memory as words, or as something that they are read from.
pub trait Table: Copy {
    ghost words: { Self → List ℕ };

    // How many words the table has.
    fn count(self) -> usize
        ensures { result ≡ length (words self) };

    // Word k of them.
    fn word(self, k: usize) -> u32
        requires { k < length (words self) }
        ensures { result ≡ get_or (words self) k 0 };
}

impl Table for &[u32] {
    ghost words = { λ t. t.now };

    fn count(self) -> usize {
        self.len()
    }

    fn word(self, k: usize) -> u32 {
        self[k]
    }
}

// A word of a table; 0 past its end.
pub fn word_at<T: Table>(table: T, at: usize) -> u32
    ensures { result ≡ get_or (T.words table) at 0 }
{
    if at < table.count() {
        return table.word(at);
    }
    0
}

// Word j of row i of a table with rows of a length.
fn field<T: Table>(table: T, length: usize, i: u32, j: usize) -> u32
    requires { (length ≤ 11) × (j ≤ 11) }
    ensures { result ≡ field_of length (T.words table) i j }
{
    word_at(table, i as usize * length + j)
}

// Two words from word j on, as a span.
pub fn span_at<T: Table>(table: T, length: usize, i: u32, j: usize) -> Span
    requires { (length ≤ 11) × (j ≤ 8) }
    ensures { result ≡ span_at length (T.words table) i j }
{
    let at = i as usize * length + j;
    if at + 1 < table.count() {
        return Span {
            first: table.word(at),
            past: table.word(at + 1),
        };
    }
    Span {
        first: word_at(table, at),
        past: 0,
    }
}

// Four words from word j on, as 128 bits.
fn words_at<T: Table>(table: T, length: usize, i: u32, j: usize) -> Words
    requires { (length ≤ 11) × (j ≤ 8) }
    ensures { result ≡ words_at length (T.words table) i j }
{
    Words {
        a: field(table, length, i, j),
        b: field(table, length, i, j + 1),
        c: field(table, length, i, j + 2),
        d: field(table, length, i, j + 3),
    }
}

// Item row i.
pub fn item_at<T: Table>(items: T, i: u32) -> Item
    ensures { result ≡ item_at (T.words items) i }
{
    Item {
        kind: field(items, ITEM_LENGTH, i, 0),
        statements: span_at(items, ITEM_LENGTH, i, 1),
        middle: field(items, ITEM_LENGTH, i, 3),
        infer: field(items, ITEM_LENGTH, i, 4),
        operands: span_at(items, ITEM_LENGTH, i, 5),
        attributes: span_at(items, ITEM_LENGTH, i, 7),
    }
}

// Statement row i.
pub fn statement_at<T: Table>(statements: T, i: u32) -> Statement
    ensures { result ≡ statement_at (T.words statements) i }
{
    let at = i as usize * STATEMENT_LENGTH;
    if at + STATEMENT_LENGTH <= statements.count() {
        return Statement {
            code: statements.word(at),
            name: Span {
                first: statements.word(at + 1),
                past: statements.word(at + 2),
            },
            width: statements.word(at + 3),
            number: statements.word(at + 4),
            block: statements.word(at + 5),
            operands: Span {
                first: statements.word(at + 6),
                past: statements.word(at + 7),
            },
            attributes: Span {
                first: statements.word(at + 8),
                past: statements.word(at + 9),
            },
        };
    }
    Statement {
        code: field(statements, STATEMENT_LENGTH, i, 0),
        name: span_at(statements, STATEMENT_LENGTH, i, 1),
        width: field(statements, STATEMENT_LENGTH, i, 3),
        number: field(statements, STATEMENT_LENGTH, i, 4),
        block: field(statements, STATEMENT_LENGTH, i, 5),
        operands: span_at(statements, STATEMENT_LENGTH, i, 6),
        attributes: span_at(statements, STATEMENT_LENGTH, i, 8),
    }
}

// Operand row i.
pub fn operand_at<T: Table>(operands: T, i: u32) -> Operand
    ensures { result ≡ operand_at (T.words operands) i }
{
    let at = i as usize * OPERAND_LENGTH;
    if at + OPERAND_LENGTH <= operands.count() {
        return Operand {
            code: operands.word(at),
            row: operands.word(at + 1),
            width: operands.word(at + 2),
            bits: Words {
                a: operands.word(at + 3),
                b: operands.word(at + 4),
                c: operands.word(at + 5),
                d: operands.word(at + 6),
            },
        };
    }
    Operand {
        code: field(operands, OPERAND_LENGTH, i, 0),
        row: field(operands, OPERAND_LENGTH, i, 1),
        width: field(operands, OPERAND_LENGTH, i, 2),
        bits: words_at(operands, OPERAND_LENGTH, i, 3),
    }
}

// Attribute row i.
pub fn attribute_at<T: Table>(attributes: T, i: u32) -> Attribute
    ensures { result ≡ attribute_at (T.words attributes) i }
{
    Attribute {
        code: field(attributes, ATTRIBUTE_LENGTH, i, 0),
        pattern: span_at(attributes, ATTRIBUTE_LENGTH, i, 1),
        low: words_at(attributes, ATTRIBUTE_LENGTH, i, 3),
        high: words_at(attributes, ATTRIBUTE_LENGTH, i, 7),
    }
}

// What statement row i is, by its code.
pub fn code_at<T: Table>(statements: T, i: u32) -> u32
    ensures { result ≡ (statement_at (T.words statements) i).code }
{
    field(statements, STATEMENT_LENGTH, i, 0)
}

// Where the name of statement row i stands.
pub fn name_at<T: Table>(statements: T, i: u32) -> Span
    ensures { result ≡ (statement_at (T.words statements) i).name }
{
    span_at(statements, STATEMENT_LENGTH, i, 1)
}

// The number of statement row i.
pub fn number_at<T: Table>(statements: T, i: u32) -> u32
    ensures { result ≡ (statement_at (T.words statements) i).number }
{
    field(statements, STATEMENT_LENGTH, i, 4)
}
