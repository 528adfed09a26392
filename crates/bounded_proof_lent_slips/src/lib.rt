// Slips in lending a ring and records, and for each the statement of document 02's item 11 that it makes false (specs/), proved by computing (proofs/). No code.
#![tactic(auto)]
