// What goes to standard error: a line on what was asked for, and how far it has come through a list.

use std::fmt::Write;
use text_output::{Text, put};
use text_system::System;

pub fn on_error(system: &System, text: &Text) {
    text_system::streams::put_error(system, text.as_bytes());
}

// Told to a terminal now and then: a list of half a million bytes takes about a second.
const STRIDE: usize = 524288;

// Past the sequence of so many acts that stands at this byte.
pub fn past(system: &System, at: usize, acts: usize) {
    let left = STRIDE - at % STRIDE;
    if left <= acts && text_system::streams::is_error_terminal(system) {
        let mut room = [0u8; 64];
        let mut text = Text::new(&mut room);
        put!(text, "{at} bytes of the list\n");
        on_error(system, &text);
    }
}
