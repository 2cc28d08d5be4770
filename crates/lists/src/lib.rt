// No code: the words in which the definitions of every other crate speak of lists (specs/Lists.antt), and their laws (proofs/ListsLaws.antt).
#![tactic(auto)]
