// The words that the definitions of specs/ and the code share. Types and constants alone: the rules themselves stand in specs/.
#![tactic(auto)]

pub mod code;
pub mod keyword;
pub mod kind;
mod refusal;

pub use refusal::{Reason, Refusal};

// The numbers from `lo` up to and with `hi`.
#[derive(Clone, Copy)]
pub struct Range {
    pub lo: u32,
    pub hi: u32,
}

// That a text is not well-formed UTF-8: its first bad sequence starts here.
#[derive(Clone, Copy, Debug, PartialEq, Eq)]
pub struct IllFormed {
    pub at: usize,
}

// What stands at the front of a text that begins with neither white space nor a comment.
#[derive(Clone, Copy)]
pub enum Front {
    // A token's kind and how many bytes it has.
    Spelt(u32, usize),
    // No token, and how far on the fault lies.
    Fault(usize),
    // No byte at all.
    Nothing,
}

// A token: its kind, its first byte, and the byte past its last.
#[derive(Clone, Copy)]
pub struct Token {
    pub kind: u32,
    pub first: usize,
    pub past: usize,
}

// A place in a text. The text itself is lent to each call.
#[derive(Clone, Copy)]
pub struct Cursor {
    pub at: usize,
}

// What the lexer finds at or after a cursor: a token, the end of the text, or a refusal at a place.
#[derive(Clone, Copy)]
pub enum Lexed {
    Found(Token),
    End,
    Refused(usize),
}

// A refusal: its number, and its place in the text.
#[derive(Clone, Copy, Debug, PartialEq, Eq)]
pub struct LexRefusal {
    pub number: u32,
    pub place: u64,
}

// What a lexing came to: how many tokens stand before the first refusal, and that refusal, if any.
#[derive(Clone, Copy, Debug, PartialEq, Eq)]
pub struct LexReport {
    pub tokens: u32,
    pub refusal: Option<LexRefusal>,
}

// A token as the reader keeps it, in the 32 bits of a row's word: its kind, 0 for no token, its first byte and the byte past its last.
#[derive(Clone, Copy)]
pub struct Spot {
    pub kind: u32,
    pub first: u32,
    pub past: u32,
}

// From the first up to the one past the last: bytes of the text, or rows of a table.
#[derive(Clone, Copy)]
pub struct Span {
    pub first: u32,
    pub past: u32,
}

// 128 bits as four words, the highest first.
#[derive(Clone, Copy)]
pub struct Words {
    pub a: u32,
    pub b: u32,
    pub c: u32,
    pub d: u32,
}

// The four rows, as docs/LAYOUT.md has them.
#[derive(Clone, Copy)]
pub struct Item {
    pub kind: u32,
    pub statements: Span,
    pub middle: u32,
    pub infer: u32,
    pub operands: Span,
    pub attributes: Span,
}

#[derive(Clone, Copy)]
pub struct Statement {
    pub code: u32,
    pub name: Span,
    pub width: u32,
    pub number: u32,
    pub block: u32,
    pub operands: Span,
    pub attributes: Span,
}

#[derive(Clone, Copy)]
pub struct Operand {
    pub code: u32,
    pub row: u32,
    pub width: u32,
    pub bits: Words,
}

#[derive(Clone, Copy)]
pub struct Attribute {
    pub code: u32,
    pub pattern: Span,
    pub low: Words,
    pub high: Words,
}

// What a right side says, but for its operands.
#[derive(Clone, Copy)]
pub struct Side {
    pub code: u32,
    pub number: u32,
    pub block: u32,
}

// The three entry points.
#[derive(Clone, Copy)]
pub enum Entry {
    Replacements,
    LeftHandSides,
    RightHandSides,
}

// How many rows of each table.
#[derive(Clone, Copy, Debug, PartialEq, Eq)]
pub struct Counts {
    pub items: u32,
    pub statements: u32,
    pub operands: u32,
    pub attributes: u32,
}

impl Counts {
    // No row.
    pub const NONE: Counts = Counts {
        items: 0,
        statements: 0,
        operands: 0,
        attributes: 0,
    };
}

// How many bytes of text and rows of each table a load left.
#[derive(Clone, Copy, Debug, PartialEq, Eq)]
pub struct Loaded {
    pub text: u64,
    pub rows: Counts,
}

// The bytes of a stored file's five parts, as its trailer tells them.
#[derive(Clone, Copy)]
pub struct Lengths {
    pub text: u32,
    pub items: u32,
    pub statements: u32,
    pub operands: u32,
    pub attributes: u32,
}
