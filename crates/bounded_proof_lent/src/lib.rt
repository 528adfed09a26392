// Records in the host's memory, proved; crate bounded_demands states it (specs/Demands.antt). The way: proofs/Padded.antt, idle records past the count change nothing, so that up to 16
// lent records are those of the machine that holds them; Acting.antt, a step leaves the other records; Throughout.antt, steps that are each on what the last one left are a schedule.
// Theorems alone.
#![tactic(auto)]
