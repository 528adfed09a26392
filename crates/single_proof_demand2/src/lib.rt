// Demand 2 on the one-slot queue, proved; crate single_demands states it (specs/Demands.antt). The way: proofs/Turns.antt, what an accepted
// entry did; Words.antt and Effects.antt, an act is of one of seven kinds; Splits.antt and Log.antt, what one act more adds to a history; Grip.antt, each kind of
// effect keeps who holds the slot and what stands in it; Reached.antt, so under every schedule from a fresh machine; Demand2.antt, and that is the
// demand. Theorems alone.
#![tactic(auto)]
