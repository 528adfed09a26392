// The demands of document 01 as statements (specs/), each proved (proofs/). No code.
#![tactic(auto)]
