// No code: what a mending owes, said over the definitions of the crates below, and proved.
#![tactic(auto)]
