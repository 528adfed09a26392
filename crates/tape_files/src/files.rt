// A file appears whole or not at all: what is written is kept under another name beside it, or for standard output under none, until
// all of it is there.
use replay_input::starter::Starter;
use std::fs::File;
use text_output::Text;
use text_system::System;
use text_system::files::Flow;

pub fn is_standard(name: &[u8]) -> bool {
    name == b"-".as_slice()
}

// Only a plain file can be made to last.
fn is_device(system: &System, name: &[u8]) -> bool {
    match text_system::files::open_to_change(system, name) {
        Some(file) => !text_system::files::keep(system, &file),
        None => false,
    }
}

// A device or a link would be replaced by a file.
fn is_special(system: &System, name: &[u8]) -> bool {
    text_system::files::is_link(system, name) || is_device(system, name)
}

// NAME.LETTERS
pub fn beside(system: &System, name: &[u8], path: &mut Text) {
    let mut letters = [0u8; 4];
    text_system::files::put_letters(system, &mut letters);
    path.bytes(name);
    path.byte(b'.');
    path.bytes(&letters);
}

// A file to write to; None: there is none, and that is said, or the starter was ended and hears nothing.
pub fn sink(system: &System, starter: Starter, name: &[u8], path: &[u8]) -> Option<File> {
    if is_standard(name) {
        return replay_input::spare::nameless(system, "tape");
    }
    if is_special(system, name) {
        crate::say::special(system, name);
        return None;
    }
    text_system::failed(system, 0);
    replay_input::starter::hears_file(system, starter, path);
    if text_system::why(system) == text_system::CLOSED_PIPE {
        return None;
    }
    let file = text_system::files::create(system, path);
    if file.is_none() {
        replay_input::say::fail(system, "tape", name);
    }
    file
}

pub fn put(system: &System, file: &File, bytes: &[u8]) -> bool {
    if text_system::files::put(system, file, bytes) {
        return true;
    }
    replay_input::say::fail(system, "tape", b"keeping what is written");
    false
}

// All of a nameless file to standard output.
fn to_output(system: &System, file: File) -> bool {
    text_system::files::rewind(system, &file);
    replay_input::source::copy_all(
        system,
        "tape",
        &Flow::Of(file),
        &Flow::Standard,
        b"what is written",
        b"standard output",
    )
}

// A starter that was ended, even so that it could hand nothing on, has ended the program too.
fn replaced(system: &System, starter: Starter, name: &[u8], path: &[u8]) -> bool {
    if replay_input::starter::is_gone(system, starter) {
        crate::say::abandoned(system, name);
        return false;
    }
    if text_system::files::rename(system, path, name) {
        return true;
    }
    replay_input::say::fail(system, "tape", name);
    false
}

fn renamed(system: &System, starter: Starter, name: &[u8], path: &[u8], file: File) -> bool {
    let lasts = text_system::files::keep(system, &file);
    if !lasts {
        replay_input::say::fail(system, "tape", name);
    }
    std::mem::drop(file);
    if lasts && replaced(system, starter, name, path) {
        return true;
    }
    text_system::files::remove(system, path);
    false
}

// What was written becomes the file.
fn commit(system: &System, starter: Starter, name: &[u8], path: &[u8], file: File) -> bool {
    if is_standard(name) {
        return to_output(system, file);
    }
    renamed(system, starter, name, path, file)
}

fn discard(system: &System, name: &[u8], path: &[u8], file: File) {
    std::mem::drop(file);
    if !is_standard(name) {
        text_system::files::remove(system, path);
    }
}

// Where the status is 0, what was written becomes the file; otherwise it is gone. Answers the status, or 2.
pub fn finish(
    system: &System,
    starter: Starter,
    status: u8,
    name: &[u8],
    path: &[u8],
    file: File,
) -> u8 {
    if status != 0 {
        discard(system, name, path, file);
        return status;
    }
    if commit(system, starter, name, path, file) {
        return 0;
    }
    2
}
