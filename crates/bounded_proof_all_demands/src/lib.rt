// Demands 1 to 3 in one place: proofs/Headlines.antt. No code.
#![tactic(auto)]
