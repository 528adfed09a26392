// Slips in walking, and the statement that is false of each (specs/), proved by computing (proofs/). No code.
#![tactic(auto)]
