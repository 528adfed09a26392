// The arguments of the program, and its environment.
ghost use Rattle.std.specs.Prelude.{◌≤◌, length};

use crate::System;
use std::env::FillError;
use std::rt::Env;

// An argument at the buffer's start: how long it is; 0 where there is none or it finds no room, and the reason is kept.
pub fn read(s: &System, i: usize, bytes: &mut [u8]) -> usize
    ensures { result ≤ length bytes.new }
{
    match s.rt.arg(i, bytes) {
        Ok(n) => {
            crate::failed(s, 0);
            n
        }
        Err(FillError::TooLong) => {
            crate::failed(s, crate::TOO_LONG);
            0
        }
        Err(FillError::NotPresent) => {
            crate::failed(s, crate::NO_ARGUMENT);
            0
        }
    }
}

fn is_there(s: &System, i: usize) -> bool {
    match s.rt.arg(i, &mut []) {
        Ok(_) => true,
        Err(FillError::TooLong) => true,
        Err(FillError::NotPresent) => false,
    }
}

// How many there are, the program's name among them.
pub fn count(s: &System) -> usize {
    for i in 0..usize::MAX {
        if !is_there(s, i) {
            return i;
        }
    }
    usize::MAX
}

// A variable of the environment at the buffer's start: how long it is; 0 where there is none. Of what finds no room the first bytes fill the buffer.
pub fn variable(s: &System, name: &str, bytes: &mut [u8]) -> usize
    ensures { result ≤ length bytes.new }
{
    match s.rt.var(name, bytes) {
        Ok(n) => n,
        Err(FillError::TooLong) => bytes.len(),
        Err(FillError::NotPresent) => 0,
    }
}
