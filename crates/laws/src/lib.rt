// Facts about lists, tests and widths that several crates' proofs share, each stated once. No code.
#![tactic(auto)]
