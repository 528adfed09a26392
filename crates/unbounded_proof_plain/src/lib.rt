// Every answer of the unbounded queue is a plain queue's, but for one of is_empty, proved (proofs/). No code.
#![tactic(auto)]
