// What is said of the pool under every schedule, proved; crate unbounded_demands states it (specs/Demands.antt). The way: proofs/Aside.antt, who has a block
// set aside knows of a first block; Slots.antt, a block's owner tells its number in the chain; Pool.antt, and that is what is said. Theorems alone.
#![tactic(auto)]
