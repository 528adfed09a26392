// The demands of request 1 on the one-slot queue as statements (specs/), the first of them proved (proofs/). No code.
#![tactic(auto)]
