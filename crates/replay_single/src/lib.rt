// What replay of the one-slot queue is made of: the entries run and written line by line, and the counts of a run.
#![tactic(auto)]

pub mod play;
pub mod summary;
