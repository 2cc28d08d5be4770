// What the tables hold after a load, and that they are a net: theorems only, no code.
#![tactic(auto)]
