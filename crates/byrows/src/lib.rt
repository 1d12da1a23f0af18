// The listing by row numbers is the listing by names, for the rows of well-formed tables. No code.
#![tactic(auto)]
