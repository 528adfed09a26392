// A tape piece by piece, in a fixed amount of memory: the fields that stand whole in a window, and then what is left of it with the bytes that follow.
#![tactic(auto)]

ghost use Rattle.std.specs.Prelude.{◌≡◌, ◌-◌, ◌/◌, ◌≤◌, IfOk, IfSome, length, take, drop};
ghost use Rattle.tapes_fields.specs.Judged.{field_in};
ghost use Rattle.tapes.specs.Heard.{hear_from};
ghost use Rattle.tape_pieces.specs.Stretches.{passed};

use std::fs::File;
use tapes_fields::{Field, Head};
use tapes_numbers::Variant;
use text_sums::Sum;
use text_system::System;
use text_system::streams::Failed;

// A window, and the words of as many entries as it can have.
pub const WINDOW: usize = 65536;

pub const WORDS: usize = 32768;

// Nothing was read; more is to come; the tape has ended; it is refused; its bytes can't be had.
#[derive(Clone, Copy, PartialEq, Eq)]
pub enum State {
    New,
    Going,
    Done,
    Refused,
    Failed,
}

#[derive(Clone, Copy)]
pub struct Piece {
    pub state: State,
    // of the first field
    pub variant: Variant,
    pub capacity: u64,
    pub workers: u64,
    // how many words there are, at their buffer's start
    pub count: usize,
    // of a refusal
    pub number: u64,
    pub byte: u64,
    // how many bytes are left in the window, and which byte of the tape its first one is
    have: usize,
    base: u64,
    // of all bytes that were read
    pub sum: Sum,
}

// How many bytes are in the window, and whether the input ended.
#[derive(Clone, Copy)]
struct Filled {
    have: usize,
    ended: bool,
}

// Reads until the window is full or the input ends.
fn fill(system: &System, file: &File, window: &mut [u8], have: usize) -> Result<Filled, Failed>
    requires { have ≤ length window.old }
    ensures { IfOk result (λ f. f.have ≤ length window.new) }
{
    let mut n = have;
    while n < window.len() {
        let more = text_system::files::read(system, file, &mut window[n..])?;
        if more == 0 {
            return Ok(Filled {
                have: n,
                ended: true,
            });
        }
        n += more;
    }
    Ok(Filled {
        have: n,
        ended: false,
    })
}

// The entries that stand one after another: where they end, and how many words they are.
#[derive(Clone, Copy)]
struct Stretch {
    at: usize,
    count: usize,
    // what stands there, which is no entry; none, where the words found no room
    next: Option<Field>,
}

// The whole is heard as these entries, and then as what stands behind them is.
fn entries(bytes: &[u8], v: Variant, from: usize, words: &mut [u64]) -> Stretch
    ensures heard { passed (take result.count words.new) (hear_from (length bytes.now - result.count / 2) v result.at (drop result.at bytes.now)) ≡ hear_from (length bytes.now) v from (drop from bytes.now) }
    ensures next { IfSome result.next (λ f. f ≡ field_in v (drop result.at bytes.now)) }
{
    let mut at = from;
    let mut n = 0;
    while n + 1 < words.len() {
        if bytes.len() < at {
            return Stretch {
                at,
                count: n,
                next: Some(Field::Fault(12)),
            };
        }
        let f = tapes_fields::field_in(&bytes[at..], v);
        match f {
            Field::Entry(first, item) => {
                words[n] = first;
                words[n + 1] = item;
                at += tapes_fields::size(first);
                n += 2;
            }
            Field::Fault(_) | Field::End => {
                return Stretch {
                    at,
                    count: n,
                    next: Some(f),
                };
            }
        }
    }
    Stretch {
        at,
        count: n,
        next: None,
    }
}

impl Piece {
    fn begun(variant: Variant, capacity: u64, workers: u64, sum: Sum) -> Piece {
        Piece {
            state: State::New,
            variant,
            capacity,
            workers,
            count: 0,
            number: 0,
            byte: 0,
            have: 0,
            base: 0,
            sum,
        }
    }

    pub fn start() -> Piece {
        Piece::begun(Variant::BigEndian, 0, 0, Sum::start())
    }

    pub fn goes_on(&self) -> bool {
        matches!(self.state, State::New | State::Going)
    }

    fn fail(&mut self) {
        self.state = State::Failed;
        self.count = 0;
    }

    fn refuse(&mut self, number: u64, at: usize) {
        self.state = State::Refused;
        self.count = 0;
        self.number = number;
        self.byte = self.base.wrapping_add(at as u64);
    }

    // The window's bytes behind these entries are not a whole field yet, and go to its start.
    fn keep(&mut self, window: &mut [u8], have: usize, e: Stretch) {
        if have < e.at || window.len() < have {
            return self.fail();
        }
        window.copy_within(e.at..have, 0);
        self.state = State::Going;
        self.count = e.count;
        self.have = have - e.at;
        self.base = self.base.wrapping_add(e.at as u64);
    }

    // A tape whose end was met; what follows it is not in a full window.
    fn end(&mut self, system: &System, file: &File, have: usize, e: Stretch) {
        let mut byte = [0u8; 1];
        let end = e.at.wrapping_add(3);
        if end != have {
            return self.refuse(15, end);
        }
        match text_system::files::read(system, file, &mut byte) {
            Err(Failed) => self.fail(),
            Ok(0) => {
                self.state = State::Done;
                self.count = e.count;
            }
            Ok(_) => self.refuse(15, end),
        }
    }

    // From this byte of the window on. A field that is cut where the input goes on has more to come.
    fn later(
        &mut self,
        system: &System,
        file: &File,
        f: Filled,
        window: &mut [u8],
        from: usize,
        words: &mut [u64],
    ) {
        let have = f.have.min(window.len());
        let e = entries(&window[..have], self.variant, from, words);
        match e.next {
            None => self.keep(window, have, e),
            Some(Field::Fault(12)) if !f.ended => self.keep(window, have, e),
            Some(Field::Fault(number)) => self.refuse(number, e.at),
            Some(Field::End) => self.end(system, file, have, e),
            Some(Field::Entry(_, _)) => self.fail(),
        }
    }

    fn first(
        &mut self,
        system: &System,
        file: &File,
        f: Filled,
        window: &mut [u8],
        words: &mut [u64],
    ) {
        let have = f.have.min(window.len());
        match tapes_fields::head_in(&window[..have]) {
            Head::Fault(number) => self.refuse(number, 0),
            Head::Makes(v, capacity, workers) => {
                *self = Piece::begun(v, capacity, workers, self.sum);
                self.later(system, file, f, window, 7, words);
            }
        }
    }

    // With the bytes that are new in the window.
    fn add(&mut self, window: &[u8], have: usize) {
        if self.have <= have && have <= window.len() {
            self.sum.add(&window[self.have..have]);
        }
    }

    // The next piece: its words stand in the buffer; both buffers are as long as said above, or longer.
    pub fn next(&mut self, system: &System, file: &File, window: &mut [u8], words: &mut [u64]) {
        if window.len() < self.have || words.len() < 2 {
            return self.fail();
        }
        match fill(system, file, window, self.have) {
            Err(Failed) => self.fail(),
            Ok(f) => {
                self.add(window, f.have);
                if self.state == State::New {
                    self.first(system, file, f, window, words);
                } else {
                    self.later(system, file, f, window, 0, words);
                }
            }
        }
    }
}
