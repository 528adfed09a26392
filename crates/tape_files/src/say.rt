// What is refused, a line on standard error.

use std::fmt::Write;
use text_output::{Text, put};
use text_system::System;

pub fn special(system: &System, name: &[u8]) {
    replay_input::say::of_name(
        system,
        "tape",
        name,
        ": a link or a device; - writes to standard output\n",
    );
}

pub fn abandoned(system: &System, name: &[u8]) {
    replay_input::say::of_name(
        system,
        "tape",
        name,
        ": as it was, since the starter was ended\n",
    );
}

fn meaning(refusal: u64) -> &'static str {
    match refusal {
        9 => "an entry that cannot be read: code above 9, or an item where none may be",
        12 => "cut short",
        13 => "unknown tag, wrong length or place, or mixed variant",
        14 => "code not allowed under its tag",
        15 => "bytes after the end",
        16 => "output buffer too short",
        17 => {
            "an entry that a tape can't carry: code above 9, an item where none may be, or a worker above 15"
        }
        _ => "an odd number of words",
    }
}

// refused N at WHERE PLACE: and what it means.
fn put_refused(text: &mut Text, number: u64, place: &str, n: u64) {
    put!(text, "refused {number} at {place} {n}: {}", meaning(number));
}

fn refused(system: &System, number: u64, place: &str, n: u64) {
    let mut room = [0u8; 512];
    let mut text = Text::new(&mut room);
    put_refused(&mut text, number, place, n);
    text.byte(b'\n');
    text_system::streams::put_error(system, text.as_bytes());
}

pub fn refused_tape(system: &System, number: u64, byte: u64) {
    refused(system, number, "byte", byte);
}

// Of an entry, put into this text.
pub fn put_entry(text: &mut Text, number: u64, entry: u64) {
    put_refused(text, number, "entry", entry);
}

// An odd number of numbers: a whole schedule of the ring has an even one, of any other queue an odd one.
pub fn refused_odd(system: &System) {
    text_system::streams::put_error(
        system,
        b"refused 11 at entry 0: an odd number of words; a schedule of another queue has no capacity: put a 1 before it\n",
    );
}

// Of the whole schedule: entry 0.
pub fn refused_schedule(system: &System, number: u64, entry: u64, capacity: u64, workers: u64) {
    if number == 17 && 65535 < capacity {
        text_system::streams::put_error(
            system,
            b"refused 17 at entry 0: a capacity above 65,535\n",
        );
    } else if number == 17 && 65535 < workers {
        text_system::streams::put_error(
            system,
            b"refused 17 at entry 0: a worker count above 65,535\n",
        );
    } else {
        refused(system, number, "entry", entry);
    }
}
