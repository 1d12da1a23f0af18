// Results of the public calls are told apart by the answers that they are. No code.
#![tactic(auto)]
