// The one-slot queue's words in a host's memory: what is said of them (specs/Hosted.antt), with slips (specs/Slips.antt), and proofs. Theorems alone.
#![tactic(auto)]
