// No code: when a drawing settles, stated on the drawing, and proved.
#![tactic(auto)]
