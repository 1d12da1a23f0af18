// Spacing is nothing: two texts of the same tokens are read alike, whatever white space and comments stand between. No code.
#![tactic(auto)]
