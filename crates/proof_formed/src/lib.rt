// What well-formed tables say: items that can be printed and read back, and as many rows of each table as these have. No code.
#![tactic(auto)]
