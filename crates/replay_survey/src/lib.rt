// A schedule read once before it is run: whether every number is one, how many there are, and the first entry that can't be read. Then it is read piece by piece.
#![tactic(auto)]

pub mod answers;
pub mod counts;
pub mod pieces;
pub mod runs;

use replay_input::say::Hints;
use replay_input::source::{Input, Reading, Start};
use std::fs::File;
use text_system::System;

#[derive(Clone, Copy)]
pub struct Survey {
    pub reading: Reading,
    // the code of a call that the queue has not; 16: it has all
    barred: u64,
    // the pairs so far, of which the first makes the machine, and whether a number is left over: 1 or 0
    pub pairs: u64,
    pub left: usize,
    // the place of the first entry that can't be read, once there is one
    unread: Option<u64>,
    // the first pair
    pub capacity: u64,
    pub workers: u64,
}

// Of a whole schedule: what is refused of it on a machine that is not broken, 11, or 9 with its place, 0 is nothing; and of what its machine is made.
#[derive(Clone, Copy)]
pub struct Whole {
    pub refusal: u64,
    pub place: u64,
    pub capacity: u64,
    pub workers: u64,
}

// A schedule that was run: whether it was refused; by which number, and at which place; what each worker answered last.
#[derive(Clone, Copy)]
pub struct Played {
    pub refused: bool,
    pub refusal: u64,
    pub place: u64,
    pub answers: [u64; answers::WORDS],
}

impl Played {
    // Of which no entry was refused; the whole may be.
    pub fn told(refused: bool) -> Played {
        Played {
            refused,
            refusal: 0,
            place: 0,
            answers: answers::none(),
        }
    }
}

// The k-th entry among those after so many pairs.
fn place_of(pairs: u64, k: u64) -> u64 {
    if pairs == 0 {
        return k;
    }
    k.wrapping_add(pairs - 1)
}

// Of a list of pairs that follow so many.
fn entries_of(pairs: u64, list: &[u64]) -> &[u64] {
    if pairs == 0 && 2 <= list.len() {
        return &list[2..];
    }
    list
}

const HINTS: Hints = Hints {
    mark: "; several schedules are read with --many",
    tape: "; a tape is read with --tape",
    no_capacity: "; a schedule without one is of another --queue",
};

impl Survey {
    // So many pairs more. Of words there can be more than a number holds (`act N` is N entries): it stays at the largest then, since 0 says that none is read yet.
    fn add(&mut self, count: u64) {
        self.pairs = self.pairs.saturating_add(count);
    }

    fn with_first(&mut self, list: &[u64]) {
        if self.pairs == 0 && 2 <= list.len() {
            self.capacity = list[0];
            self.workers = list[1];
        }
    }

    fn search(&mut self, list: &[u64]) {
        if self.unread.is_some() {
            return;
        }
        if let Some(k) = queue_entries::search_but(self.barred, entries_of(self.pairs, list)) {
            self.unread = Some(place_of(self.pairs, k as u64));
        }
    }

    // The whole pairs of the list.
    fn with_pairs(&mut self, list: &[u64]) {
        let count = list.len() / 2;
        let pairs = &list[..2 * count];
        self.with_first(pairs);
        self.search(pairs);
        self.add(count as u64);
    }

    fn turn(&mut self, input: &mut Input) {
        self.reading.turn(input, self.left);
        let count = self.reading.count;
        let list = &mut *input.list;
        if count <= list.len() {
            self.with_pairs(&list[..count]);
        }
        let owing = self.reading.owing();
        self.add(owing);
        self.reading.owing_none();
        self.left = replay_input::source::carry(list, count);
    }

    pub fn numbers(&self) -> u64 {
        if self.pairs == 0 { self.left as u64 } else { 2 }
    }

    // Says what is wrong, and answers whether nothing is.
    pub fn is_sound(&self, system: &System, file: &File, many: bool, name: &[u8]) -> bool {
        replay_input::say::is_sound(
            system,
            "replay",
            name,
            file,
            many,
            &self.reading,
            self.numbers(),
            HINTS,
        )
    }

    // "11, 9, then entry by entry"
    pub fn refused_whole(&self) -> Whole {
        let (refusal, place) = match self.unread {
            _ if self.left == 1 => (11, 0),
            Some(place) => (9, place),
            None => (0, 0),
        };
        Whole {
            refusal,
            place,
            capacity: self.capacity,
            workers: self.workers,
        }
    }
}

// Of the schedule that begins here; so many numbers, each 1, are put before it: none or one.
pub fn surveyed(
    system: &System,
    file: &File,
    many: bool,
    before: usize,
    barred: u64,
    is_tape: bool,
    from: Start,
) -> Survey {
    let mut bytes = [0u8; replay_input::source::BYTES];
    let mut list = [1u64; replay_input::source::NUMBERS];
    let mut input = Input {
        system,
        file,
        many,
        bytes: &mut bytes,
        list: &mut list,
    };
    let mut survey = Survey {
        reading: Reading::start(is_tape, from, before),
        barred,
        pairs: 0,
        left: before,
        unread: None,
        capacity: 0,
        workers: 0,
    };
    for _ in 0..u64::MAX {
        if survey.reading.ended.is_some() {
            break;
        }
        survey.turn(&mut input);
    }
    survey
}
