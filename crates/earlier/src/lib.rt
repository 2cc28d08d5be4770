// No code: what appending a kind and wider values owe to files and readers of earlier days, said over the definitions of the crates below, and proved.
#![tactic(auto)]
