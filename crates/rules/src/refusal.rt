// Why a call refuses what it is given.
ghost use Rattle.std.specs.Prelude.{◌≡◌};
ghost use Rattle.rules.specs.Results.{number_of};

use std::fmt;

// Why: a row of the table in section 4 of docs/RULES.md, or a refusal of section 10.
#[derive(Clone, Copy, Debug, PartialEq, Eq)]
pub enum Reason {
    TextTooLong,
    NotUtf8,
    NoToken,
    Unwanted,
    BadInteger,
    BadName,
    NoRow,
    NotWellFormed,
    WorkTooShort,
    OutputTooShort,
    OtherVersion,
    NotInOrder,
    NoRoom,
}

impl Reason {
    // The number that docs/RULES.md gives it.
    pub fn number(self) -> u32
        ensures { result ≡ number_of self }
    {
        match self {
            Reason::TextTooLong => 1,
            Reason::NotUtf8 => 2,
            Reason::NoToken => 3,
            Reason::Unwanted => 4,
            Reason::BadInteger => 5,
            Reason::BadName => 6,
            Reason::NoRow => 7,
            Reason::NotWellFormed => 8,
            Reason::WorkTooShort => 9,
            Reason::OutputTooShort => 10,
            Reason::OtherVersion => 13,
            Reason::NotInOrder => 14,
            Reason::NoRoom => 15,
        }
    }
}

// A refusal: why, and at which place, as the same table has it.
#[derive(Clone, Copy, Debug, PartialEq, Eq)]
pub struct Refusal {
    pub reason: Reason,
    pub place: u64,
}

impl fmt::Display for Refusal {
    fn fmt<W: fmt::Write>(&self, f: &mut fmt::Formatter<W>) -> fmt::Result {
        let number = self.reason.number();
        let place = self.place;
        write!(f, "refused {number} at {place}")
    }
}
