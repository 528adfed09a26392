// A run of the ring in plain words: a line for each entry, of at most 100 columns, and at the end who is busy, what waits and what was lost.
#![tactic(auto)]

mod ends;
pub mod entries;
pub mod play;
