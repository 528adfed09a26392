// The promises of the two functions of tapes as they stand in their code: only one answer meets each. No code.
#![tactic(auto)]
