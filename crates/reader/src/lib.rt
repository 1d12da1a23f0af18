// The rules of the grammar, a function each, in the order of the crate's `impl Parse`. Rows go into the lent tables as they are claimed.
#![tactic(auto)]

pub mod attributes;
pub mod items;
pub mod operands;
pub mod sides;
pub mod statements;
