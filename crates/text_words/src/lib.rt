// Schedules in words, as the numbers that they stand for, and back; knows no queue.
#![tactic(auto)]

pub mod line;
pub mod names;
pub mod reading;
pub mod writing;
