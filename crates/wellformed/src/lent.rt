// What a caller lends: a text and four tables.

// A text and its tables, which stand in T.
#[derive(Clone, Copy)]
pub struct Lent<'a, T> {
    pub text: &'a [u8],
    pub items: T,
    pub statements: T,
    pub operands: T,
    pub attributes: T,
}
