// What an accepted read leaves is well formed: the other promise of the read calls, beside those of `simulation`. No code.
#![tactic(auto)]
