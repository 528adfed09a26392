// Every retry has a cause, proved (proofs/). No code.
#![tactic(auto)]
