// What the programs that run vectors share: the lines of a text, the fields of a line, and how an answer is written.
#![tactic(auto)]

mod fields;
mod lines;
mod parts;
mod spelling;
mod writing;

pub use fields::Fields;
pub use lines::Lines;
pub use parts::{behind, front};
pub use spelling::{Spelt, capital_digit, small_digit, spell};
pub use writing::{Hex, Text, say};
