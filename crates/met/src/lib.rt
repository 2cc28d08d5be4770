// No code: what the split of 13 owes, said over the definitions of the crates below, and proved.
#![tactic(auto)]
