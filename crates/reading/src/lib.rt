// What holds of reading, rule by rule, as theorems over the definitions of `rules`. No code.
#![tactic(auto)]
