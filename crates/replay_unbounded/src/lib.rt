// What replay is made of for the unbounded queue: the entries run and written line by line.
#![tactic(auto)]

pub mod play;
