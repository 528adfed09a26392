// Files, by name or open. A name is text, and one that isn't names none.
ghost use Rattle.std.specs.Prelude.{IfOk, ◌≤◌, length};

use crate::System;
use crate::streams::{Failed, failure, is_done};
pub use std::fs::File;
use std::fs::OpenOptions;
use std::io::{Read, Seek, SeekFrom, Write};
use std::os::unix::fs::{FileExt, FileTypeExt, OpenOptionsExt};
use std::random::RandomSource;

fn path_of<'a>(s: &System, name: &'a [u8]) -> Option<&'a str> {
    match std::str::from_utf8(name) {
        Ok(path) => Some(path),
        Err(_) => {
            crate::failed(s, crate::NO_TEXT);
            None
        }
    }
}

fn opened(s: &System, how: &OpenOptions, path: &str) -> Option<File> {
    match how.open(&s.rt, path) {
        Ok(file) => Some(file),
        Err(e) => {
            crate::failed_by(s, e);
            None
        }
    }
}

fn opened_by_name(s: &System, how: &OpenOptions, name: &[u8]) -> Option<File> {
    let path = path_of(s, name)?;
    opened(s, how, path)
}

// For reading.
pub fn open(s: &System, name: &[u8]) -> Option<File> {
    let mut how = OpenOptions::new();
    how.read(true);
    opened_by_name(s, &how, name)
}

// For reading and writing, as it is.
pub fn open_to_change(s: &System, name: &[u8]) -> Option<File> {
    let mut how = OpenOptions::new();
    how.read(true);
    how.write(true);
    opened_by_name(s, &how, name)
}

// For writing behind what stands there.
pub fn open_to_add(s: &System, name: &[u8]) -> Option<File> {
    let mut how = OpenOptions::new();
    how.append(true);
    opened_by_name(s, &how, name)
}

// For writing, where there is none of that name.
pub fn create(s: &System, name: &[u8]) -> Option<File> {
    let mut how = OpenOptions::new();
    how.write(true);
    how.create_new(true);
    opened_by_name(s, &how, name)
}

// The same for reading too, and nobody else may open it.
fn create_apart(s: &System, name: &[u8]) -> Option<File> {
    let mut how = OpenOptions::new();
    how.read(true);
    how.write(true);
    how.create_new(true);
    how.mode(0o600);
    opened_by_name(s, &how, name)
}

// Puts letters by chance, as many as there is room for.
pub fn put_letters(s: &System, letters: &mut [u8]) {
    let _ = s.rt.fill_bytes(letters);
    for b in letters {
        *b = b'a' + *b % 26;
    }
}

const LETTERS: usize = 6;

// How often a name by chance is tried that is there already.
const TRIES: usize = 100;

// A file of its own: the last letters of its name are put by chance.
pub fn create_by_chance(s: &System, name: &mut [u8]) -> Option<File> {
    if name.len() < LETTERS {
        return None;
    }
    let from = name.len() - LETTERS;
    for _ in 0..TRIES {
        put_letters(s, &mut name[from..]);
        let made = create_apart(s, name);
        if made.is_some() || crate::why(s) != crate::IS_THERE {
            return made;
        }
    }
    None
}

pub fn remove(s: &System, name: &[u8]) -> bool {
    match path_of(s, name) {
        Some(path) => is_done(s, std::fs::remove_file(&s.rt, path)),
        None => false,
    }
}

pub fn rename(s: &System, from: &[u8], to: &[u8]) -> bool {
    match (path_of(s, from), path_of(s, to)) {
        (Some(a), Some(b)) => is_done(s, std::fs::rename(&s.rt, a, b)),
        _ => false,
    }
}

pub fn is_link(s: &System, name: &[u8]) -> bool {
    match path_of(s, name) {
        Some(path) => match std::fs::symlink_metadata(&s.rt, path) {
            Ok(m) => m.is_symlink(),
            Err(_) => false,
        },
        None => false,
    }
}

// What is a pipe or a socket, by its name or behind a link, or can't be told.
pub fn is_flow(s: &System, name: &[u8]) -> bool {
    match path_of(s, name) {
        Some(path) => match std::fs::metadata(&s.rt, path) {
            Ok(m) => m.file_type().is_fifo() || m.file_type().is_socket(),
            Err(_) => true,
        },
        None => true,
    }
}

// Reads once, where the file stands.
pub fn read(s: &System, file: &File, bytes: &mut [u8]) -> Result<usize, Failed>
    ensures { IfOk result (λ n. n ≤ length bytes.new) }
{
    let mut from = file;
    match from.read(bytes) {
        Ok(n) => Ok(n),
        Err(e) => Err(failure(s, e)),
    }
}

// Reads once, from this byte on, and the file stands where it stood.
pub fn read_at(s: &System, file: &File, bytes: &mut [u8], at: u64) -> Result<usize, Failed>
    ensures { IfOk result (λ n. n ≤ length bytes.new) }
{
    match file.read_at(bytes, at) {
        Ok(n) => Ok(n),
        Err(e) => Err(failure(s, e)),
    }
}

// Answers whether all of it was written.
pub fn put(s: &System, file: &File, bytes: &[u8]) -> bool {
    let mut to = file;
    is_done(s, to.write_all(bytes))
}

// A pipe stands nowhere.
pub fn is_at_start(s: &System, file: &File) -> bool {
    let mut of = file;
    match of.seek(SeekFrom::Current(0)) {
        Ok(at) => at == 0,
        Err(e) => {
            crate::failed_by(s, e);
            false
        }
    }
}

pub fn rewind(s: &System, file: &File) -> bool {
    let mut of = file;
    match of.seek(SeekFrom::Start(0)) {
        Ok(_) => true,
        Err(e) => {
            crate::failed_by(s, e);
            false
        }
    }
}

// What is read or written: a standard stream, or an open file.
#[derive(Drop)]
pub enum Flow {
    Standard,
    Of(File),
}

pub fn read_from(s: &System, from: &Flow, bytes: &mut [u8]) -> Result<usize, Failed>
    ensures { IfOk result (λ n. n ≤ length bytes.new) }
{
    match from {
        Flow::Standard => crate::streams::read(s, bytes),
        Flow::Of(file) => read(s, file, bytes),
    }
}

pub fn put_to(s: &System, to: &Flow, bytes: &[u8]) -> bool {
    match to {
        Flow::Standard => crate::streams::put(s, bytes),
        Flow::Of(file) => put(s, file, bytes),
    }
}

pub fn file_of(flow: Flow) -> Option<File> {
    match flow {
        Flow::Standard => None,
        Flow::Of(file) => Some(file),
    }
}

// Answers whether all that was written will last.
pub fn keep(s: &System, file: &File) -> bool {
    is_done(s, file.sync_all())
}
