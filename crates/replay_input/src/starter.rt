// What the starter hears, if it asks, on a descriptor that it opens: the path of each file that it is to remove where a signal ends the program,
// each ended by a 0; then the status, a digit. The program itself ends with 0, or as if a pipe's signal had ended it.
use std::process::ExitCode;
use text_numbers::Scan;
use text_system::System;

// The descriptor where none is named.
pub const FILENO: u64 = 3;

// As a program that the system's signal for a pipe that nobody reads has ended: 128, and the signal's number.
const UNREAD: u8 = 141;

// Who asks: the process that started this one, and on which descriptor, if one asks.
#[derive(Clone, Copy)]
pub struct Starter {
    pub process: u32,
    pub descriptor: Option<u64>,
    // what is opened later and has that number is no starter's
    hears: bool,
}

// Asked on this descriptor, or by nobody: 0.
pub fn asking(system: &System, descriptor: u64) -> Starter {
    let asks = 0 < descriptor && descriptor < 1048576;
    Starter {
        process: text_system::process::parent(system),
        descriptor: if asks { Some(descriptor) } else { None },
        hears: asks && text_system::descriptors::may_write(system, descriptor),
    }
}

// Whether a starter that asked has ended meanwhile.
pub fn is_gone(system: &System, starter: Starter) -> bool {
    starter.descriptor.is_some() && text_system::process::parent(system) != starter.process
}

fn hears(system: &System, starter: Starter, bytes: &[u8]) {
    if let Some(descriptor) = starter.descriptor {
        if starter.hears {
            text_system::descriptors::write(system, descriptor, bytes);
        }
    }
}

pub fn hears_file(system: &System, starter: Starter, path: &[u8]) {
    hears(system, starter, path);
    hears(system, starter, &[0u8]);
}

// 0: done. 1: refused. 2: the input or the arguments cannot be read, or something cannot be written.
pub fn hears_status(system: &System, starter: Starter, status: u8) {
    let digit = [b'0' + status % 3];
    hears(system, starter, &digit);
}

// What the program ends with: its starter has heard the status, and sees by this that nobody reads what it wrote.
pub fn ending(system: &System, starter: Starter, status: u8) -> ExitCode {
    let is_unread = text_system::why(system) == text_system::CLOSED_PIPE;
    hears_status(system, starter, status);
    if is_unread {
        return ExitCode::from(UNREAD);
    }
    ExitCode::SUCCESS
}

// The number of a descriptor in an argument, read as the numbers of a schedule are; 0: it is none.
pub fn number_in(word: &[u8]) -> u64 {
    let mut numbers = [0; 2];
    let mut scan = Scan::start(1);
    let digits = scan.read_piece(false, word, &mut numbers, 0);
    let end = scan.read_piece(false, b"\n", &mut numbers, digits.count);
    if end.count == 1 { numbers[0] } else { 0 }
}
