// The statements of request 12 (specs/), and the proof of the first demand and of the table of runs (proofs/). No code.
#![tactic(auto)]
