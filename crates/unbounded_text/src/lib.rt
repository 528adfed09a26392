// What a machine of the unbounded queue holds, as text in a buffer that the caller lends (crate text_output).
#![tactic(auto)]

pub mod machine;
