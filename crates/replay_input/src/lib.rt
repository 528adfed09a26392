// What every program shares: the bytes of a schedule, what is said where they are wrong or nothing can be written, and what its starter hears.
#![tactic(auto)]

pub mod say;
pub mod source;
pub mod spare;
pub mod starter;
