// What programs write of tapes: files, and lines on standard error where a tape or a schedule is refused.
#![tactic(auto)]

pub mod files;
pub mod say;
