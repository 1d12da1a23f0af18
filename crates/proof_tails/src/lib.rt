// What a print puts before a tail is the same alone, followed by the tail. No code.
#![tactic(auto)]
