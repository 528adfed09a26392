// The proofs of what is said of walks (bounded_demands). No code.
#![tactic(auto)]
