// What is asked of tapes, as statements (specs/), with the proofs of those that need no law (proofs/). No code.
#![tactic(auto)]
