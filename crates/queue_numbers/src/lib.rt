// Which numbers a queue's refusals can have: a number of a list (specs/), and the laws of every queue's lists (proofs/). No code.
#![tactic(auto)]
