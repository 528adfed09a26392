// A schedule that is read to be run, piece by piece, and how far the run is.
use crate::{Played, Whole};
use replay_input::source::{Input, Reading};
use text_output::Text;
use text_system::System;

// Where the reading stands, and the entries of the piece that was read last.
#[derive(Clone, Copy)]
pub struct Pieces {
    pub reading: Reading,
    // the pair that makes the machine was read
    begun: bool,
    // the entries begin and end here in the list of numbers
    from: usize,
    to: usize,
    // the entries that were run before it
    place: u64,
}

impl Pieces {
    pub fn start(begun: Reading) -> Pieces {
        Pieces {
            reading: begun,
            begun: false,
            from: 0,
            to: 0,
            place: 0,
        }
    }

    // The next piece, of a run that is so far; a number that has no pair yet is left for the one after.
    pub fn next(&mut self, input: &mut Input, run: Run) {
        self.reading.next(input);
        let even = self.reading.count - self.reading.count % 2;
        let is_first = !self.begun && 2 <= even;
        self.begun = self.begun || is_first;
        self.from = if is_first { 2 } else { 0 };
        self.to = even;
        self.place = run.place;
    }

    // The entries of the piece, two numbers each.
    pub fn entries<'a>(&self, list: &'a [u64]) -> &'a [u64] {
        if self.from <= self.to && self.to <= list.len() {
            return &list[self.from..self.to];
        }
        &list[..0]
    }

    // Tells a terminal how far the run is, and answers whether another piece is to be read: none after a refusal, nor once the text is lost.
    pub fn goes_on(&self, system: &System, run: Run, text: &Text) -> bool {
        replay_input::say::progress(system, self.place, run.place, text);
        self.reading.tells_on(run.refusal, text)
    }

    // After the last piece: the text goes on nowhere if the bytes were not those that were surveyed.
    pub fn ended(&self, input: &mut Input, text: &mut Text) {
        self.reading.checked(input, text);
    }
}

// How far a run is.
#[derive(Clone, Copy)]
pub struct Run {
    // entries accepted so far: the place of the next one
    pub place: u64,
    pub refusal: u64,
    // the refusal is of the whole
    pub whole: bool,
}

impl Run {
    // Before the first entry, of a machine that is broken or not: "Order becomes 6, 11, 9, then entry by entry"
    pub fn begun(broken: bool, whole: Whole) -> Run {
        if broken {
            return Run {
                place: 0,
                refusal: 6,
                whole: true,
            };
        }
        Run {
            place: whole.place,
            refusal: whole.refusal,
            whole: whole.refusal != 0,
        }
    }

    // After all entries of a list at once, of which so many were accepted.
    pub fn ran(self, accepted: u64, refusal: u64) -> Run {
        Run {
            place: self.place.wrapping_add(accepted),
            refusal,
            whole: false,
        }
    }

    // Whether the whole is reported at the end: where there was no line for each entry.
    pub fn is_reported(&self, quiet: bool) -> bool {
        quiet || self.whole
    }

    // A run that is over, whose workers answered this last.
    pub fn played(&self, answers: [u64; crate::answers::WORDS]) -> Played {
        Played {
            refused: self.refusal != 0,
            refusal: self.refusal,
            place: self.place,
            answers,
        }
    }
}

// What follows the output of one of many.
pub fn end(system: &System, text: &mut Text, many: bool) {
    if many {
        text.text("%\n");
    }
    text.settle(system);
}
