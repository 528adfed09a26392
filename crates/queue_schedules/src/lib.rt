// Schedules over any queue's machine: one worker's acts among them (specs/), and the laws that every queue's proofs rest on (proofs/). No code.
#![tactic(auto)]
