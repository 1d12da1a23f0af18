// What was demanded, as theorems over the contracts of the public calls. No code.
#![tactic(auto)]
