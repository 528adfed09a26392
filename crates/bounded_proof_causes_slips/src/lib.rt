// Slips in naming causes, and for each the statement of document 02's item 9 that it makes false (specs/), proved by computing (proofs/). No code.
#![tactic(auto)]
