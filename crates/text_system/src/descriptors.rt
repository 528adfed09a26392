// Descriptors that were open when the program was started, as the system's own files tell of them: nothing else reaches one by its number.
use crate::System;
use crate::files::{File, is_at_start, is_flow, open, open_to_add, open_to_change, read};
use crate::room::Room;
use std::fmt::Write;

fn opened(s: &System, folder: &str, number: u64) -> Option<File> {
    let mut path = Room::new();
    let _ = write!(path, "{folder}{number}");
    open(s, path.as_bytes())
}

// What stands behind a word.
fn behind<'a>(text: &'a [u8], word: &[u8]) -> Option<&'a [u8]> {
    for i in 0..text.len() {
        if let Some(rest) = text[i..].strip_prefix(word) {
            return Some(rest);
        }
    }
    None
}

// A number behind a word, in digits of this base.
fn number_behind(text: &[u8], word: &[u8], base: u64) -> Option<u64> {
    let mut n = 0u64;
    for b in behind(text, word)? {
        if !b.is_ascii_digit() {
            break;
        }
        n = n
            .wrapping_mul(base)
            .wrapping_add(u64::from(b.wrapping_sub(b'0')));
    }
    Some(n)
}

// What the system tells of an open descriptor: where it stands, and what may be done with it.
#[derive(Clone, Copy)]
struct Open {
    place: u64,
    reads: bool,
    writes: bool,
}

// The last two bits of its flags say whether it may be read (0), written (1), or both (2).
fn open_in(text: &[u8]) -> Option<Open> {
    let place = number_behind(text, b"pos:\t", 10)?;
    let access = number_behind(text, b"flags:\t", 8).unwrap_or(0) % 4;
    Some(Open {
        place,
        reads: access == 0 || access == 2,
        writes: access == 1 || access == 2,
    })
}

fn look(s: &System, number: u64) -> Option<Open> {
    let mut text = [0u8; 256];
    let file = opened(s, "/proc/self/fdinfo/", number)?;
    match read(s, &file, &mut text) {
        Ok(n) => open_in(&text[..n]),
        Err(_) => None,
    }
}

pub fn may_write(s: &System, number: u64) -> bool {
    match look(s, number) {
        Some(open) => open.writes,
        None => false,
    }
}

// By a file that is closed again: one that stayed open would take a number that the caller has left free. To open a named pipe that nobody reads would wait
// for a reader, so this opens it for reading too until then.
fn put_behind(s: &System, path: &[u8], bytes: &[u8]) -> bool {
    let reader = open_to_change(s, path);
    let writer = open_to_add(s, path);
    std::mem::drop(reader);
    match writer {
        Some(file) => crate::files::put(s, &file, bytes),
        None => false,
    }
}

// Answers whether all of it was written.
pub fn write(s: &System, number: u64, bytes: &[u8]) -> bool {
    let mut path = Room::new();
    let _ = write!(path, "/proc/self/fd/{number}");
    put_behind(s, path.as_bytes(), bytes)
}

const INPUT: &[u8] = b"/proc/self/fd/0";

// Standard input, where it stands at its start and may be read. No pipe and no socket is opened: to open one could wait.
pub fn whole_input(s: &System) -> Option<File> {
    let standing = look(s, 0)?;
    if standing.place != 0 || !standing.reads || is_flow(s, INPUT) {
        return None;
    }
    let file = open(s, INPUT)?;
    if is_at_start(s, &file) {
        return Some(file);
    }
    None
}
