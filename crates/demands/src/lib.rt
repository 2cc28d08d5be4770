// No code: what the whole program owes, said over the definitions of the crates below, and proved.
#![tactic(auto)]
