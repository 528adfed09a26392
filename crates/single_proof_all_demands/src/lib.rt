// Demands 1 to 3 on the one-slot queue in one place: proofs/Headlines.antt. No code.
#![tactic(auto)]
