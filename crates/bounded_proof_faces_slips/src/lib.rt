// Slips in what a face of the ring answers, and for each the statement of demand 1 or of mixtures that it makes false (specs/), proved by computing (proofs/). No code.
#![tactic(auto)]
