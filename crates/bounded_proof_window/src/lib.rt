// The window of document 02, item 14: that it is met, and that it is needed, proved (proofs/). No code.
#![tactic(auto)]
