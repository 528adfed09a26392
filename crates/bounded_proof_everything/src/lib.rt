// All that is said of the ring, its slips too, in one place: proofs/Everything.antt. No code.
#![tactic(auto)]
