// A plain queue, and a run of it beside any queue's schedule: what there is to believe (specs/), and the laws of every story (proofs/). No code.
#![tactic(auto)]
