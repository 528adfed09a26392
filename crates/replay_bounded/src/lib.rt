// Replay of the ring: a schedule read piece by piece, run and written line by line. Ring and records are words, as a host has them.
#![tactic(auto)]

pub mod entries;
pub mod play;
