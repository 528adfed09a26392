// Places of the unbounded queue, with their words, as text in a buffer that the caller lends (crate text_output).
#![tactic(auto)]

pub mod code;
pub mod words;
