// No code: chains of wires, and when rounds of a net settle, proved on its tables.
#![tactic(auto)]
