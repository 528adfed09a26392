// The promises of the ring's functions as they stand in their code: only one answer meets each. No code.
#![tactic(auto)]
