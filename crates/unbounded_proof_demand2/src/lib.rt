// Demand 2 of the unbounded queue: what every schedule reaches stands for a queue over positions (proofs/Turns.antt, Logged.antt, Reached.antt), `Drop`'s walk over it
// (Walk.antt), blocks taken and freed (Dealings.antt), and the statements (Demand2.antt). Theorems alone.
#![tactic(auto)]
