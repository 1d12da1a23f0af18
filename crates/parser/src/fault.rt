// What can be at fault in a text, and the token at fault.
ghost use Rattle.std.specs.Prelude.{◌≡◌};

use rules::Spot;

#[derive(Clone, Copy, Debug, PartialEq, Eq)]
pub enum What {
    Lexer,
    Token,
    End,
    Integer,
    Unknown,
    Redefined,
    NoBlock,
    NoRow,
}

#[derive(Clone, Copy)]
pub struct Fault {
    pub what: What,
    pub at: Spot,
}

impl Fault {
    // What is at fault, at a token.
    pub fn new(what: What, at: Spot) -> Fault
        ensures what { result.what ≡ what }
        ensures at { result.at ≡ at }
    {
        Fault { what, at }
    }
}
