// Every answer of the one-slot queue is a plain queue's of capacity 1, proved (proofs/). No code.
#![tactic(auto)]
