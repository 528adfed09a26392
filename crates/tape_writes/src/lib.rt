// The numbers of a schedule, read piece by piece as replay reads them, and their tape.
#![tactic(auto)]

use replay_input::say::Hints;
use replay_input::source::{Input, Reading, Start};
use replay_input::starter::Starter;
use std::fs::File;
use tapes::Writing;
use tapes_numbers::Variant;
use text_output::Text;
use text_system::System;
use text_system::files::Flow;

// A piece of text and room for its numbers, so few that their tape, 12 bytes to two of them at the most, has room in a large buffer.
const BYTES: usize = 16384;

const NUMBERS: usize = 8200;

// Where a tape goes, and the memory that a piece of it has.
#[derive(Drop)]
struct Sink<'a> {
    system: &'a System,
    variant: Variant,
    to: &'a File,
    tape: &'a mut [u8],
}

#[derive(Clone, Copy)]
struct Head {
    capacity: u64,
    workers: u64,
}

#[derive(Clone, Copy)]
struct Refusal {
    number: u64,
    place: u64,
}

// Where the reading of the numbers stands, and what it has brought.
#[derive(Clone, Copy)]
struct Work {
    reading: Reading,
    // the numbers that are left for the next piece: 1 or 0
    left: usize,
    // once it is there
    head: Option<Head>,
    // the entries so far
    entries: u64,
    // the first
    refusal: Option<Refusal>,
    // the tape can't be kept, and that was said
    stuck: bool,
}

const HINTS: Hints = Hints {
    mark: "; a tape has one schedule",
    tape: "; this is a tape, and tape read prints it",
    no_capacity: "; a tape has one, which other queues do not use: capacity 1",
};

impl Work {
    fn start() -> Work {
        Work {
            reading: Reading::start(false, Start::of_file(), 0),
            left: 0,
            head: None,
            entries: 0,
            refusal: None,
            stuck: false,
        }
    }

    fn refuse(&mut self, number: u64, place: u64) {
        if self.refusal.is_none() {
            self.refusal = Some(Refusal { number, place });
        }
    }

    // What a tape has between two of its bytes goes to the file.
    fn put_part(&mut self, sink: &Sink, from: usize, end: usize) {
        if self.stuck || self.refusal.is_some() {
            return;
        }
        self.stuck = end < from
            || sink.tape.len() < end
            || !tape_files::files::put(sink.system, sink.to, &sink.tape[from..end]);
    }

    // The tape of these entries alone; what of it the whole tape has is that without its first 7 bytes and its last 3.
    fn put_entries(&mut self, sink: &mut Sink, words: &[u64]) {
        match tapes::write(sink.variant, 0, 0, words, sink.tape) {
            Writing::Refused(number, place) => {
                self.refuse(number, self.entries.wrapping_add(place as u64));
            }
            Writing::Tape(n) => {
                if n < 10 {
                    self.stuck = true;
                    return;
                }
                self.put_part(sink, 7, n - 3);
            }
        }
    }

    // How the machine is made; 0 of what is not there.
    fn made(&self) -> Head {
        self.head.unwrap_or(Head {
            capacity: 0,
            workers: 0,
        })
    }

    // Some bytes of a tape that has no entries: its first 7, or its last 3.
    fn put_frame(&mut self, sink: &mut Sink, from: usize, end: usize) {
        let head = self.made();
        match tapes::write(sink.variant, head.capacity, head.workers, &[], sink.tape) {
            Writing::Refused(number, _) => self.refuse(number, 0),
            Writing::Tape(_) => self.put_part(sink, from, end),
        }
    }

    // Whole entries alone.
    fn with_entries(&mut self, sink: &mut Sink, list: &[u64]) {
        let n = list.len() / 2;
        self.put_entries(sink, &list[..2 * n]);
        self.entries = self.entries.wrapping_add(n as u64);
    }

    // The first two are the first field, where it is not written yet.
    fn with_numbers(&mut self, sink: &mut Sink, list: &[u64]) {
        if self.head.is_some() {
            return self.with_entries(sink, list);
        }
        if list.len() < 2 {
            return;
        }
        self.head = Some(Head {
            capacity: list[0],
            workers: list[1],
        });
        self.put_frame(sink, 0, 7);
        self.with_entries(sink, &list[2..]);
    }

    fn turn(&mut self, input: &mut Input, sink: &mut Sink) {
        self.reading.turn(input, self.left);
        let count = self.reading.count;
        let list = &mut *input.list;
        if count <= list.len() {
            self.with_numbers(sink, &list[..count]);
        } else {
            self.stuck = true;
        }
        self.left = replay_input::source::carry(list, count);
    }

    // Whether there are no numbers, or one, or as many as a schedule needs.
    fn numbers(&self) -> u64 {
        if self.head.is_some() {
            2
        } else {
            self.left as u64
        }
    }

    // Says what is wrong with the text, or what is refused.
    fn is_sound(&self, system: &System, from: &File, name: &[u8]) -> bool {
        replay_input::say::is_sound(
            system,
            "tape",
            name,
            from,
            false,
            &self.reading,
            self.numbers(),
            HINTS,
        )
    }

    fn tell_entry(&self, system: &System, r: Refusal, from: &File, name: &[u8]) {
        let mut room = [0u8; 512];
        let mut why = Text::new(&mut room);
        tape_files::say::put_entry(&mut why, r.number, r.place);
        let begun = Reading::begun(false, Start::of_file(), 0, self.reading.sum_of());
        replay_refusals::tell_of(system, name, from, begun, r.place, why.as_bytes());
    }

    // An entry with its line in the file, or how the machine is made.
    fn tell_refused(&self, system: &System, r: Refusal, from: &File, name: &[u8]) {
        let head = self.made();
        if head.capacity < 65536 && head.workers < 65536 {
            return self.tell_entry(system, r, from, name);
        }
        tape_files::say::refused_schedule(system, r.number, r.place, head.capacity, head.workers)
    }

    fn status_of(&self, system: &System, from: &File, name: &[u8]) -> u8 {
        if self.stuck || !self.is_sound(system, from, name) {
            return 2;
        }
        if self.left == 1 {
            tape_files::say::refused_odd(system);
            return 1;
        }
        match self.refusal {
            Some(r) => {
                self.tell_refused(system, r, from, name);
                1
            }
            None => 0,
        }
    }
}

fn worked(system: &System, from: &File, variant: Variant, to: &File) -> Work {
    let mut bytes = [0u8; BYTES];
    let mut list = [0u64; NUMBERS];
    let mut tape = [0u8; 65536];
    let mut input = Input {
        system,
        file: from,
        many: false,
        bytes: &mut bytes,
        list: &mut list,
    };
    let mut sink = Sink {
        system,
        variant,
        to,
        tape: &mut tape,
    };
    let mut w = Work::start();
    for _ in 0..u64::MAX {
        if w.stuck || w.reading.ended.is_some() {
            break;
        }
        w.turn(&mut input, &mut sink);
    }
    w.put_frame(&mut sink, 7, 10);
    w
}

fn write_to(
    system: &System,
    starter: Starter,
    from: &File,
    name: &[u8],
    v: Variant,
    tape: &[u8],
    path: &[u8],
) -> u8 {
    match tape_files::files::sink(system, starter, tape, path) {
        Some(to) => {
            let w = worked(system, from, v, &to);
            let status = w.status_of(system, from, name);
            tape_files::files::finish(system, starter, status, tape, path, to)
        }
        None => 2,
    }
}

fn run_kept(
    system: &System,
    starter: Starter,
    kept: File,
    name: &[u8],
    v: Variant,
    tape: &[u8],
) -> u8 {
    let mut room = [0u8; 4608];
    let mut path = Text::new(&mut room);
    tape_files::files::beside(system, tape, &mut path);
    let status = write_to(system, starter, &kept, name, v, tape, path.as_bytes());
    replay_input::source::release(kept);
    status
}

// A schedule's text and the name of its tape; answers the status.
pub fn run(
    system: &System,
    starter: Starter,
    from: Flow,
    name: &[u8],
    v: Variant,
    tape: &[u8],
) -> u8 {
    match replay_input::source::kept(system, "tape", from, name) {
        Some(kept) => run_kept(system, starter, kept, name, v, tape),
        None => 2,
    }
}
