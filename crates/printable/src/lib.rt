// What well-formed tables give a print: all that the printer asks of its callers, and that the rows it prints say what is to be printed. No code.
#![tactic(auto)]
