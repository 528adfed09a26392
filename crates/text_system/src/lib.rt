// What a program asks of the system, by the runtime that `main` is handed: standard streams, files, arguments, the environment. Why the last
// call that failed did is kept, for who tells it.
#![tactic(auto)]

pub mod arguments;
pub mod descriptors;
pub mod files;
pub mod process;
mod reason;
mod room;
pub mod streams;

use std::cell::Cell;
use std::io::Error;
use std::rt::HostRuntime;

// Why a call failed, by the system's numbers: there is no such file, the file is there already, no such argument, nobody reads the pipe any more, a
// name is too long, it is no text.
pub const NO_FILE: i32 = 2;

pub const IS_THERE: i32 = 17;

pub const NO_ARGUMENT: i32 = 22;

pub const CLOSED_PIPE: i32 = 32;

pub const TOO_LONG: i32 = 36;

pub const NO_TEXT: i32 = 84;

// Of what has no number: input or output.
const NO_NUMBER: i32 = 5;

#[derive(Drop)]
pub struct System {
    rt: HostRuntime,
    why: Cell<i32>,
}

pub fn of(rt: HostRuntime) -> System {
    System {
        rt: rt,
        why: Cell::new(0),
    }
}

// The number of what made a call fail, the last one that did.
pub fn why(s: &System) -> i32 {
    s.why.get()
}

pub fn failed(s: &System, number: i32) {
    s.why.set(number);
}

fn failed_by(s: &System, e: Error) {
    failed(s, e.raw_os_error().unwrap_or(NO_NUMBER));
}

// WHAT: and why the last call that failed did, on standard error.
pub fn fail(s: &System, what: &[u8]) {
    let mut text = [0u8; room::ROOM];
    let n = reason::told(&mut text, why(s));
    streams::put_error(s, what);
    if n <= text.len() {
        streams::put_error(s, &text[..n]);
    }
}
