// What goes wrong with the input or the output, as one line on standard error that begins with the program's name.
use crate::source::{Ended, Reading, to_offset};
use std::fmt::Write;
use std::fs::File;
use text_numbers::Stop;
use text_output::{Loss, Text, put};
use text_system::System;

// The room of a line that has a name.
pub const LINE: usize = text_names::ROOM + 512;

// PROGRAM: NAME
fn named(text: &mut Text, program: &str, name: &[u8]) {
    put!(text, "{program}: ");
    text_names::shown(text, name);
}

// PROGRAM: WHAT: and the system's words for it; just after the call that failed
pub fn fail(system: &System, program: &str, what: &[u8]) {
    let mut room = [0u8; LINE];
    let mut text = Text::new(&mut room);
    named(&mut text, program, what);
    text_system::fail(system, text.as_bytes());
}

// PROGRAM: NAME and what is said of it
pub fn of_name(system: &System, program: &str, name: &[u8], what: &str) {
    let mut room = [0u8; LINE];
    let mut text = Text::new(&mut room);
    named(&mut text, program, name);
    text.text(what);
    text_system::streams::put_error(system, text.as_bytes());
}

// Says that a write to this file has failed; nobody is left to be told of a pipe that was closed.
pub fn unwritten(system: &System, program: &str, what: &[u8]) {
    if text_system::why(system) != text_system::CLOSED_PIPE {
        fail(system, program, what);
    }
}

// Of what went to standard output, just after it: says so where not all of it did, and answers whether all did.
pub fn is_written(system: &System, program: &str, whole: bool) -> bool {
    if !whole {
        unwritten(system, program, b"standard output");
    }
    whole
}

// Of an input that was read again for this text: says so where it could not be, or was not what it was, and answers whether all is well.
pub fn is_read(system: &System, program: &str, name: &[u8], text: &Text) -> bool {
    match text.loss() {
        Some(Loss::Unread) => {
            fail(system, program, name);
            false
        }
        Some(Loss::Changed) => {
            changed(system, program, name);
            false
        }
        Some(Loss::Unwritten) | None => true,
    }
}

pub fn changed(system: &System, program: &str, name: &[u8]) {
    of_name(system, program, name, ": changed while it was read\n");
}

// PROGRAM: NAME: line L, column C: what is wrong there, and what else is said of it
fn fault(
    system: &System,
    program: &str,
    name: &[u8],
    line: u64,
    column: u64,
    what: &str,
    hint: &str,
) {
    let mut room = [0u8; LINE];
    let mut text = Text::new(&mut room);
    named(&mut text, program, name);
    put!(text, ": line {line}, column {column}: {what}{hint}\n");
    text_system::streams::put_error(system, text.as_bytes());
}

// What a program may say besides: of a mark where none is read, of a tape, of a schedule without a capacity.
#[derive(Clone, Copy)]
pub struct Hints {
    pub mark: &'static str,
    pub tape: &'static str,
    pub no_capacity: &'static str,
}

// The byte that the word at fault begins with; none where the input's end is at fault.
fn first_byte(system: &System, file: &File, r: &Reading) -> Option<u8> {
    let scan = r.words.scan;
    let mut byte = [0u8; 1];
    let long = scan.column.wrapping_sub(scan.start);
    let at = r.offset.wrapping_sub(1).wrapping_sub(long);
    match text_system::files::read_at(system, file, &mut byte, to_offset(at)) {
        Ok(1) => Some(byte[0]),
        _ => None,
    }
}

// A mark where none is read, a tape's first tag, or workers where the capacity should be.
fn hint(
    system: &System,
    file: &File,
    many: bool,
    r: &Reading,
    numbers: u64,
    hints: Hints,
) -> &'static str {
    let scan = r.words.scan;
    let first = first_byte(system, file, r);
    if scan.start != 1 {
        return "";
    }
    match first {
        Some(b'%') if !many => hints.mark,
        Some(1 | 129) if scan.line == 1 => hints.tape,
        Some(b'w') if numbers == 0 => hints.no_capacity,
        _ => "",
    }
}

// What is missing, where the text ends.
fn missing(numbers: u64) -> Option<&'static str> {
    match numbers {
        0 => Some("the capacity is missing"),
        1 => Some("the number of workers is missing"),
        _ => None,
    }
}

fn is_whole(system: &System, program: &str, name: &[u8], r: &Reading, numbers: u64) -> bool {
    match missing(numbers) {
        Some(what) => {
            let scan = r.words.scan;
            fault(system, program, name, scan.line, scan.column, what, "");
            false
        }
        None => true,
    }
}

// Says what is wrong with the text of a schedule that has so many numbers, and answers whether nothing is. Where it can be seen what was meant, it says so by
// the program's hints.
pub fn is_sound(
    system: &System,
    program: &str,
    name: &[u8],
    file: &File,
    many: bool,
    r: &Reading,
    numbers: u64,
    hints: Hints,
) -> bool {
    let what = match r.ended {
        Some(Ended::Failed) => {
            fail(system, program, name);
            return false;
        }
        Some(Ended::Stop(Stop::NoNumber)) => "not an unsigned decimal number",
        Some(Ended::Stop(Stop::Unexpected)) => r.words.expected(),
        Some(Ended::Stop(Stop::TooLarge)) => "a number that does not fit 64 bits",
        _ => return is_whole(system, program, name, r, numbers),
    };
    let besides = if r.ended == Some(Ended::Stop(Stop::TooLarge)) {
        ""
    } else {
        hint(system, file, many, r, numbers, hints)
    };
    let scan = r.words.scan;
    fault(system, program, name, scan.line, scan.start, what, besides);
    false
}

const STRIDE: u64 = 1000000;

// Entries run before a piece and after it: told to a terminal, now and then. Where the text is lost nothing is asked of the system, so
// that it still says why at the end.
pub fn progress(system: &System, before: u64, after: u64, text: &Text) {
    if !text.is_lost()
        && before / STRIDE != after / STRIDE
        && text_system::streams::is_error_terminal(system)
    {
        let mut room = [0u8; 64];
        let mut line = Text::new(&mut room);
        put!(line, "{after} entries\n");
        text_system::streams::put_error(system, line.as_bytes());
    }
}
