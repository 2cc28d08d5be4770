// No code: that the slow engine is alike to the flat engine, call for call, said over the definitions of the crates below, and proved.
#![tactic(auto)]
