// Every sequence of acts from a machine, and what is told of them.
#![tactic(auto)]

pub mod ends;
pub mod refused;
pub mod tell;
