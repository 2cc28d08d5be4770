// What rounds and edits keep, and when a net is quiet: theorems only, no code.
#![tactic(auto)]
