// Demand 3 on the one-slot queue, proved; crate single_demands states it (specs/Demands.antt). The way: specs/Rank.antt, how many acts a call is from its
// end; proofs/Falls.antt, alone it falls with every act and the answer foretold stays; Solo.antt, so the call ends; Hand.antt, whoever has the slot in
// hand lets go; Demand3.antt, and that is the demand. Theorems alone.
#![tactic(auto)]
