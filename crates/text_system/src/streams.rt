// The standard streams.
ghost use Rattle.std.specs.Prelude.{IfOk, ◌≤◌, length};

use crate::System;
use std::io::{Error, IsTerminal, Print, Read};

// A read that failed: `why` tells the reason.
#[derive(Clone, Copy, PartialEq, Eq)]
pub struct Failed;

pub(crate) fn failure(s: &System, e: Error) -> Failed {
    crate::failed_by(s, e);
    Failed
}

// Reads standard input once.
pub fn read(s: &System, bytes: &mut [u8]) -> Result<usize, Failed>
    ensures { IfOk result (λ n. n ≤ length bytes.new) }
{
    let mut input = s.rt.stdin();
    match input.read(bytes) {
        Ok(n) => Ok(n),
        Err(e) => Err(failure(s, e)),
    }
}

// Reads standard input until the buffer is full, or the input ends or a read fails; answers how many bytes it brought.
pub fn read_full(s: &System, bytes: &mut [u8]) -> usize
    ensures { result ≤ length bytes.new }
{
    let mut n = 0;
    while n < bytes.len() {
        match read(s, &mut bytes[n..]) {
            Ok(0) => return n,
            Ok(more) => n += more,
            Err(_) => return n,
        }
    }
    n
}

pub(crate) fn is_done(s: &System, r: std::io::Result<()>) -> bool {
    match r {
        Ok(()) => true,
        Err(e) => {
            crate::failed_by(s, e);
            false
        }
    }
}

// Answers whether all of it was written.
pub fn put(s: &System, text: &[u8]) -> bool {
    is_done(s, s.rt.stdout().write_all(text))
}

pub fn put_error(s: &System, text: &[u8]) -> bool {
    is_done(s, s.rt.stderr().write_all(text))
}

#[derive(Clone, Copy)]
pub enum Stream {
    Output,
    Error,
}

pub fn put_to(s: &System, to: Stream, text: &[u8]) -> bool {
    match to {
        Stream::Output => put(s, text),
        Stream::Error => put_error(s, text),
    }
}

pub fn is_terminal(s: &System) -> bool {
    s.rt.stdout().is_terminal()
}

pub fn is_error_terminal(s: &System) -> bool {
    s.rt.stderr().is_terminal()
}
