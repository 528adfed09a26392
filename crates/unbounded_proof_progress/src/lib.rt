// Progress of the unbounded queue, proved; crate unbounded_demands states it (specs/Demands.antt). The way: proofs/Refused.antt, which refusals an act of a call
// under way can meet; PushEnds.antt, a push with a slot in hand ends; Hands.antt, what a worker in whose hand a position is stands at; Holders.antt, so whoever
// waits has a holder; Progress.antt, and that is what is said. Theorems alone.
#![tactic(auto)]
