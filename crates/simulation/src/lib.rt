// Demand 3 of the tables that reading leaves: the definition's reader over rows, seen by names, is the reader by names. No code.
#![tactic(auto)]
