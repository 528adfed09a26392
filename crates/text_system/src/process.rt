// The process, and the one that started it.
use crate::System;

pub fn parent(s: &System) -> u32 {
    std::os::unix::process::parent_id(s.rt.process())
}
