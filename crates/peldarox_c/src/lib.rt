// The public calls for C, as include/peldarox.h has them. Each calls the library's function and states its clauses again: exports.rt has reading, printing and
// names, lex_exports.rt lexing as the text arrives, and stored_exports.rt rules on disk.
#![tactic(auto)]

pub mod exports;
pub mod lex_exports;
pub mod stored_exports;
