// Each act of request 12's table is one of the effects on a queue over positions (proofs/Step.antt: what an act comes to; Takings.antt: a block that is
// taken; Pushes, Pops, Lookers: the rows). Theorems alone.
#![tactic(auto)]
