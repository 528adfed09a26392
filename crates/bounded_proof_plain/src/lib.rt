// Every answer is a plain queue's, proved (proofs/). No code.
#![tactic(auto)]
