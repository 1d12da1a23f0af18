// Demand 3 as theorems over the definitions of `rules`, for a reader by names. No code.
#![tactic(auto)]
