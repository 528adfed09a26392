// A machine made of a schedule's first pair of numbers, and run by the others. It is held as words (bounded_text_words), and is a machine
// only where a piece of the schedule is run.
use bounded_text_words::WORDS;
use replay_input::source::{BYTES, Input, NUMBERS, Reading};
use replay_survey::Whole;
use replay_survey::pieces::{Pieces, Run};
use std::fs::File;
use text_output::Text;
use text_system::System;

// The machine, and how far its run is, which may be refused by the making.
#[derive(Clone, Copy)]
pub struct Loaded {
    pub words: [u64; WORDS],
    pub run: Run,
}

impl Loaded {
    fn made(edition: u64, whole: Whole) -> Loaded {
        let made = bounded_text_faces::make(whole.capacity, whole.workers, edition);
        let run = if made.refusal == 0 {
            Run::begun(false, whole)
        } else {
            Run {
                place: 0,
                refusal: made.refusal,
                whole: true,
            }
        };
        let words = made.words;
        Loaded { words, run }
    }

    fn entries(&mut self, list: &[u64]) {
        let left = bounded_text_faces::run(self.words, list);
        let words = left.words;
        self.words = words;
        self.run = self.run.ran(left.place, left.refusal);
    }
}

// Read piece by piece and run to its end or to its first refusal. The text is lost where the schedule is not what it was.
pub fn load(
    system: &System,
    edition: u64,
    file: &File,
    many: bool,
    begun: Reading,
    whole: Whole,
    text: &mut Text,
) -> Loaded {
    let mut bytes = [0; BYTES];
    let mut list = [1; NUMBERS];
    let mut input = Input {
        system,
        file,
        many,
        bytes: &mut bytes,
        list: &mut list,
    };
    let mut loaded = Loaded::made(edition, whole);
    let mut pieces = Pieces::start(begun);
    for _ in 0..u64::MAX {
        if !pieces.reading.goes_on(loaded.run.refusal) {
            break;
        }
        pieces.next(&mut input, loaded.run);
        loaded.entries(pieces.entries(input.list));
    }
    pieces.ended(&mut input, text);
    loaded
}
