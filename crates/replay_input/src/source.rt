// The bytes of a schedule, which is a text or a tape. They are read twice, first to see whether every number is one and how many there are,
// so that what can't be read is known before anything runs, in a fixed amount of memory. What can't be read twice is kept in a
// file that has no name. The second reading is held to the first by the sum of the bytes.
ghost use Rattle.std.specs.Prelude.{◌≤◌, IfOk, length};

use std::fs::File;
use tape_pieces::State;
use text_numbers::{Piece, Stop};
use text_output::{Loss, Text};
use text_sums::Sum;
use text_system::System;
use text_system::files::Flow;
use text_system::streams::Failed;
use text_words::line::Words;

// A piece of the input, and room for the numbers in it: of a text with one left over from the piece before, of a tape with two before its entries.
pub const BYTES: usize = tape_pieces::WINDOW;

pub const NUMBERS: usize = tape_pieces::WORDS + 8;

// What is read, one schedule or many, and the memory that a piece of it and its numbers have.
#[derive(Drop)]
pub struct Input<'a> {
    pub system: &'a System,
    pub file: &'a File,
    pub many: bool,
    pub bytes: &'a mut [u8],
    pub list: &'a mut [u64],
}

impl Input<'_> {
    // Reads once, from this byte on.
    fn read_at(&mut self, offset: u64) -> Result<usize, Failed>
        ensures { IfOk result (λ n. n ≤ length self.new.bytes.now) }
    {
        let bytes = &mut *self.bytes;
        text_system::files::read_at(self.system, self.file, bytes, to_offset(offset))
    }

    // The next piece of a tape, whose words stand from this number of the list on.
    fn next_of(&mut self, tape: &mut tape_pieces::Piece, from: usize) {
        let bytes = &mut *self.bytes;
        let list = &mut *self.list;
        if from <= list.len() {
            tape.next(self.system, self.file, bytes, &mut list[from..]);
        }
    }
}

// Where a schedule begins in its file: the offset and the line of its first byte, and the sum of the bytes before it.
#[derive(Clone, Copy)]
pub struct Start {
    pub offset: u64,
    pub line: u64,
    pub sum: Sum,
}

impl Start {
    pub fn of_file() -> Start {
        Start {
            offset: 0,
            line: 1,
            sum: Sum::start(),
        }
    }
}

// What ended a reading: something in its text, the input's end, a read that failed, or a tape that is refused.
#[derive(Clone, Copy, PartialEq, Eq)]
pub enum Ended {
    Stop(Stop),
    End,
    Failed,
    Refused,
}

// Where a reading stands: the numbers of the last piece, and what ended it.
#[derive(Clone, Copy)]
pub struct Reading {
    // of a text, with the offset of the next byte and the sum of the bytes so far
    pub words: Words,
    pub offset: u64,
    pub sum: Sum,
    // of a tape
    pub tape: Option<tape_pieces::Piece>,
    pub count: usize,
    pub ended: Option<Ended>,
    // of a reading that is not the first: what that one came to
    pub due: Sum,
}

// A file reaches no further.
pub fn to_offset(n: u64) -> u64 {
    n.min(9223372036854775807)
}

fn ended_of(state: State) -> Option<Ended> {
    match state {
        State::Going => None,
        State::Done => Some(Ended::End),
        State::Refused => Some(Ended::Refused),
        State::New | State::Failed => Some(Ended::Failed),
    }
}

// The number that is left or the capacity, and then the workers.
fn put_head(list: &mut [u64], left: usize, capacity: u64, workers: u64) {
    if list.len() < 2 {
        return;
    }
    if left == 0 {
        list[0] = capacity;
    }
    list[1] = workers;
}

// Of n bytes so many as are due; where nothing else follows this schedule all of them.
fn of_due(n: usize, many: bool, sum: Sum, due: Sum) -> usize
    ensures { result ≤ n }
{
    if many && sum.count <= due.count {
        return n.min((due.count - sum.count) as usize);
    }
    n
}

impl Reading {
    // Of a text or a tape from here on; so many numbers, none or one, are put before it.
    pub fn start(is_tape: bool, from: Start, before: usize) -> Reading {
        Reading {
            words: Words::start(from.line, before),
            offset: from.offset,
            sum: from.sum,
            tape: if is_tape {
                Some(tape_pieces::Piece::start())
            } else {
                None
            },
            count: 0,
            ended: None,
            due: Sum::start(),
        }
    }

    // Of a schedule that is read again, to be run or told: so many numbers, none or one, stand in the list before its first. The first reading came to what is due.
    pub fn begun(is_tape: bool, from: Start, before: usize, due: Sum) -> Reading {
        Reading {
            count: before,
            due,
            ..Reading::start(is_tape, from, before)
        }
    }

    // What it has come to.
    pub fn sum_of(&self) -> Sum {
        match self.tape {
            Some(tape) => tape.sum,
            None => self.sum,
        }
    }

    // How many acts of a row that was read have found no room yet.
    pub fn owing(&self) -> u64 {
        self.words.left
    }

    // For who need not see them: they are left out.
    pub fn owing_none(&mut self) {
        self.words.left = 0;
    }

    // The first entries stand after room for two numbers.
    fn tape_turn(&mut self, input: &mut Input, before: tape_pieces::Piece, left: usize) {
        let mut tape = before;
        if tape.state == State::New {
            text_system::files::rewind(input.system, input.file);
            input.next_of(&mut tape, 2);
            put_head(input.list, left, tape.capacity, tape.workers);
            self.count = tape.count.wrapping_add(2);
        } else {
            input.next_of(&mut tape, 0);
            self.count = tape.count;
        }
        self.ended = ended_of(tape.state);
        self.tape = Some(tape);
    }

    fn took(&mut self, piece: Piece) {
        self.count = piece.count;
        self.ended = piece.stop.map(Ended::Stop);
    }

    fn read(&mut self, many: bool, bytes: &[u8], list: &mut [u64], left: usize) {
        let piece = self.words.read_piece(many, bytes, list, left);
        if piece.used <= bytes.len() {
            self.sum.add(&bytes[..piece.used]);
        }
        self.offset = self.offset.wrapping_add(piece.used as u64);
        self.took(piece);
    }

    // The input's end ends a line. It ends the reading unless that line's end did, or some of its entries found no room; the reading stands where the input ended.
    fn end(&mut self, many: bool, list: &mut [u64], left: usize) {
        let mut words = self.words;
        let piece = words.read_piece(many, b"\n", list, left);
        if piece.stop.is_none() && words.left == 0 {
            self.count = piece.count;
            self.ended = Some(Ended::End);
            return;
        }
        self.words = words;
        self.took(piece);
    }

    fn text_turn(&mut self, input: &mut Input, left: usize) {
        let many = input.many;
        if 0 < self.owing() {
            return self.read(many, b"", input.list, left);
        }
        match input.read_at(self.offset) {
            Err(Failed) => {
                self.count = 0;
                self.ended = Some(Ended::Failed);
            }
            Ok(0) => self.end(many, input.list, left),
            Ok(n) => {
                let bytes = &mut *input.bytes;
                let list = &mut *input.list;
                self.read(many, &bytes[..n], list, left);
            }
        }
    }

    // Reads once. The list keeps its first `left` numbers.
    pub fn turn(&mut self, input: &mut Input, left: usize) {
        match self.tape {
            Some(tape) => self.tape_turn(input, tape, left),
            None => self.text_turn(input, left),
        }
    }

    // The next piece, after the number that the last one left over.
    pub fn next(&mut self, input: &mut Input) {
        let left = carry(input.list, self.count);
        self.turn(input, left);
    }

    // After a piece that was run to its end or refused.
    pub fn goes_on(&self, refusal: u64) -> bool {
        self.ended.is_none() && refusal == 0
    }

    // The same where text is written: no further once it is lost.
    pub fn tells_on(&self, refusal: u64, text: &Text) -> bool {
        !text.is_lost() && self.goes_on(refusal)
    }

    // What the reading comes to at its end; what it has left is read for its sum alone.
    fn whole_sum(&self, input: &mut Input) -> Result<Sum, Failed> {
        let mut sum = self.sum_of();
        match self.ended {
            Some(Ended::Failed) => return Err(Failed),
            Some(_) => return Ok(sum),
            None => {}
        }
        let mut offset = if self.tape.is_some() {
            sum.count
        } else {
            self.offset
        };
        for _ in 0..u64::MAX {
            let got = input.read_at(offset)?;
            let n = of_due(got, input.many, sum, self.due);
            if n == 0 {
                break;
            }
            sum.add(&input.bytes[..n]);
            offset = offset.wrapping_add(n as u64);
        }
        Ok(sum)
    }

    // Text goes on nowhere unless this reading, which is not the first, comes to what that one did. What it has left, where the run was refused or nothing was run, is
    // read for its sum: so what is told is of the bytes that the first reading judged.
    pub fn checked(&self, input: &mut Input, text: &mut Text) {
        if text.is_lost() {
            return;
        }
        match self.whole_sum(input) {
            Err(Failed) => text.lose(Loss::Unread),
            Ok(sum) if sum == self.due => {}
            Ok(_) => text.lose(Loss::Changed),
        }
    }
}

// The number that has no pair yet goes to the list's start, and is the one that the next piece leaves there.
pub fn carry(list: &mut [u64], count: usize) -> usize {
    if count % 2 == 0 || list.len() < count {
        return 0;
    }
    list[0] = list[count - 1];
    1
}

// Answers whether there was more.
fn copy_some(
    system: &System,
    program: &str,
    from: &Flow,
    to: &Flow,
    name: &[u8],
    to_name: &[u8],
) -> Result<bool, Failed> {
    let mut bytes = [0u8; 65536];
    match text_system::files::read_from(system, from, &mut bytes) {
        Err(Failed) => {
            crate::say::fail(system, program, name);
            Err(Failed)
        }
        Ok(0) => Ok(false),
        Ok(n) => {
            if text_system::files::put_to(system, to, &bytes[..n]) {
                return Ok(true);
            }
            crate::say::unwritten(system, program, to_name);
            Err(Failed)
        }
    }
}

// The rest of a file to another; says what failed, and answers whether nothing did.
pub fn copy_all(
    system: &System,
    program: &str,
    from: &Flow,
    to: &Flow,
    name: &[u8],
    to_name: &[u8],
) -> bool {
    for _ in 0..u64::MAX {
        match copy_some(system, program, from, to, name, to_name) {
            Ok(true) => {}
            Ok(false) => return true,
            Err(Failed) => return false,
        }
    }
    false
}

// A nameless file with the rest of the input, if it could be kept.
fn copy_of(system: &System, program: &str, from: &Flow, name: &[u8]) -> Option<File> {
    let flow = Flow::Of(crate::spare::nameless(system, program)?);
    if copy_all(system, program, from, &flow, name, b"keeping the input") {
        return text_system::files::file_of(flow);
    }
    None
}

fn kept_input(system: &System, program: &str, name: &[u8]) -> Option<File> {
    match text_system::descriptors::whole_input(system) {
        Some(file) => Some(file),
        None => copy_of(system, program, &Flow::Standard, name),
    }
}

fn kept_file(system: &System, program: &str, file: File, name: &[u8]) -> Option<File> {
    if text_system::files::is_at_start(system, &file) {
        return Some(file);
    }
    copy_of(system, program, &Flow::Of(file), name)
}

// A file that can be read twice, if there is one: of what stands at its start, the same.
pub fn kept(system: &System, program: &str, from: Flow, name: &[u8]) -> Option<File> {
    match from {
        Flow::Standard => kept_input(system, program, name),
        Flow::Of(file) => kept_file(system, program, file, name),
    }
}

pub fn release(kept: File) {
    std::mem::drop(kept);
}
