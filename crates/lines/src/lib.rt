// The lines of a print, of the rows of the lent tables: a statement's and each closing line, piece after piece.
#![tactic(auto)]

pub mod closing;
pub mod statement;
