// No code: what a look owes, said over the definitions of the crates below, and proved.
#![tactic(auto)]
