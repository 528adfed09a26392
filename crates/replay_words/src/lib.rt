// A schedule, a text or a tape, read piece by piece and told in words.
#![tactic(auto)]

use replay_input::source::{BYTES, Input, NUMBERS, Reading};
use std::fs::File;
use text_output::Text;
use text_system::System;
use text_words::writing::Row;

// How far it is: the acts that are not written yet, and whether capacity and workers are.
#[derive(Clone, Copy)]
struct Told {
    row: Row,
    begun: bool,
}

impl Told {
    // Unless the queue has no capacity.
    fn with_head(&mut self, before: usize, capacity: u64, workers: u64, text: &mut Text) {
        if before == 0 {
            text_words::writing::capacity(text, capacity);
        }
        text_words::writing::workers(text, workers);
        self.begun = true;
    }

    fn with_pair(
        &mut self,
        system: &System,
        before: usize,
        first: u64,
        second: u64,
        text: &mut Text,
    ) {
        if !self.begun {
            return self.with_head(before, first, second, text);
        }
        self.row.entry(text, first, second);
        text.settle(system);
    }

    // The pairs of the piece, and the acts of a row that found no room in the list; nothing more is owed then.
    fn with_piece(
        &mut self,
        system: &System,
        before: usize,
        r: &mut Reading,
        list: &[u64],
        text: &mut Text,
    ) {
        let (pairs, _) = list[..r.count.min(list.len())].as_chunks::<2>();
        for pair in pairs {
            self.with_pair(system, before, pair[0], pair[1], text);
        }
        if r.owing() != 0 {
            self.row.acts(text, r.words.first, r.owing());
        }
        r.owing_none();
    }
}

// Of a schedule that can be read; so many numbers, none or one, stand before it that are not told.
pub fn lines(
    system: &System,
    file: &File,
    many: bool,
    begun: Reading,
    before: usize,
    text: &mut Text,
) {
    let mut bytes = [0u8; BYTES];
    let mut list = [1u64; NUMBERS];
    let mut input = Input {
        system,
        file,
        many,
        bytes: &mut bytes,
        list: &mut list,
    };
    let mut r = begun;
    let mut told = Told {
        row: Row::none(),
        begun: false,
    };
    for _ in 0..u64::MAX {
        if !r.tells_on(0, text) {
            break;
        }
        r.next(&mut input);
        told.with_piece(system, before, &mut r, input.list, text);
    }
    r.checked(&mut input, text);
    told.row.end(text);
}

// The same, and what follows one of many.
pub fn tell(
    system: &System,
    file: &File,
    many: bool,
    begun: Reading,
    before: usize,
    text: &mut Text,
) {
    lines(system, file, many, begun, before, text);
    if many {
        text.text("%\n");
    }
    text.settle(system);
}
