// That a tape and its schedule are one another's: proofs/. No code.
#![tactic(auto)]
