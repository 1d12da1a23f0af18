// What the programs over stored files share: a text is read and stored, a file is loaded and printed, in memory of their own.
//
// A program has its stack and nothing else, some 8 MB. The tables are as long as those of `front`, which is enough for any text. The file of a text of n bytes has at
// most n + 100 n / 3 + 44 bytes, 2,250,113 for the longest text (Never has it proved): so many are lent to a store, and so many are read of a file.
#![tactic(auto)]

mod printing;
mod storing;

pub use printing::{print, print_stored};
pub use storing::{store, store_text};
