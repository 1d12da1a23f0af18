// The codes of rows, as docs/LAYOUT.md has them: numbers, since a row is words that a caller lends, and any word can stand in it.

// Items.
pub const INFER_RESULT: u32 = 1;

pub const CANDIDATE: u32 = 2;

pub const LEFT_HAND_SIDE: u32 = 3;

pub const RIGHT_HAND_SIDE: u32 = 4;

// Statements: an instruction's code is its place in the table of instructions and 1.
pub const VAR: u32 = 60;

pub const BLOCK: u32 = 61;

pub const PHI: u32 = 62;

pub const RESERVEDINST: u32 = 63;

pub const RESERVEDCONST: u32 = 64;

pub const PC: u32 = 65;

pub const BLOCKPC: u32 = 66;

// Operands.
pub const VALUE: u32 = 1;

pub const CONSTANT: u32 = 2;

// Attributes.
pub const KNOWN_BITS: u32 = 1;

pub const POWER_OF_TWO: u32 = 2;

pub const NEGATIVE: u32 = 3;

pub const NON_NEGATIVE: u32 = 4;

pub const NON_ZERO: u32 = 5;

pub const HAS_EXTERNAL_USES: u32 = 6;

pub const SIGN_BITS: u32 = 7;

pub const RANGE: u32 = 8;

pub const DEMANDED_BITS: u32 = 9;

pub const HARVESTED_FROM_USE: u32 = 10;
