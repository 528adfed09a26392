// Demands 1 and 2 on the unbounded queue, and what is said beside them, in one place: proofs/Headlines.antt. No code.
#![tactic(auto)]
