// Slips: document 01's tables with one row changed, and for each statement of the demands a slip that makes it false (specs/), proved
// by computing (proofs/). No code.
#![tactic(auto)]
