// Which token is at fault: of each fault of a text, the kind of the token where it stands. No code.
#![tactic(auto)]
