// The settled examples, and those of lexing as a text arrives, computed from the definitions. No code.
#![tactic(auto)]
