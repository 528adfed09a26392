// The lines of a run of the ring in plain words, and what is noted along the run for them: claims counted, why a worker tries again, an item's life. Ring and records are
// words, as a host has them.
#![tactic(auto)]

pub mod lines;
pub mod notes;
