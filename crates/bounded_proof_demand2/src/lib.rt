// Demand 2, proved; crate bounded_demands states it (specs/Demands.antt). The way: proofs/Turns.antt, what an accepted entry did;
// Pictured.antt, it keeps the machine a picture of a ring; Logged.antt, the history's claims are that ring's; Reached.antt, so
// under every schedule from a fresh machine; Demand2.antt, and that is the demand. Theorems alone.
#![tactic(auto)]
