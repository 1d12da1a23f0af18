// The calls over lent tables, which ask nothing of a caller: the print of items, and the name of a statement.
#![tactic(auto)]

mod naming;
mod printing;

pub use naming::{name, name_part};
pub use printing::print;
