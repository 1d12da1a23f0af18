// Reading accepts exactly the sentences of the grammar (rules, Grammar). No code.
#![tactic(auto)]
