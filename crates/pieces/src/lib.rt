// The pieces of a line, from a name to the attributes, over the rows of the lent tables. Every piece goes into a `Writer`, which lends each word the unwritten
// rest of the output and counts its whole length whether there is room or not: on an empty output it measures.
#![tactic(auto)]

pub mod attribute;
pub mod operand;

// What is printed: a text, and the rows whose names and patterns stand in it.
#[derive(Clone, Copy)]
pub struct Source<'a> {
    pub text: &'a [u8],
    pub statements: &'a [u32],
    pub operands: &'a [u32],
    pub attributes: &'a [u32],
}
