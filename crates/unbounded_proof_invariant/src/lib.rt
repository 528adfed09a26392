// The unbounded queue over positions: what it holds, the invariant, and the kinds of effect. Proofs only.
#![tactic(auto)]
