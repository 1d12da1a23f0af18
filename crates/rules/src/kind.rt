// The kinds of tokens, in the order of the crate's `Token`.
pub const IDENT: u32 = 1;

pub const VAL_NAME: u32 = 2;

pub const KNOWN_BITS: u32 = 3;

pub const INT: u32 = 4;

pub const COMMA: u32 = 5;

pub const COLON: u32 = 6;

pub const EQ: u32 = 7;

pub const OPEN_PAREN: u32 = 8;

pub const CLOSE_PAREN: u32 = 9;

pub const OPEN_BRACKET: u32 = 10;
