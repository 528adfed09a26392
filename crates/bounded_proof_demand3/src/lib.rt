// Demand 3, proved; crate bounded_demands states it (specs/Demands.antt). The way: specs/Rank.antt, how many acts a call alone is from its
// end, and Foretold.antt, the answer it will give; proofs/Falls.antt and Leaves.antt, each act lowers the one and leaves the
// other; Found.antt, what a stamp load finds with no slot in another's hand; Solo.antt, so the call ends; Queue.antt, with a
// plain queue's answer; Hand.antt, a slot in hand is let go of; Demand3.antt, and that is the demand. Theorems alone.
#![tactic(auto)]
