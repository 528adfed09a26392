// The ways in which all workers together end, in plain words, and for each the first of the shortest schedules that end so, whole and in words. All that is no schedule stands
// in comments, so that what is told can be saved and replayed as it is.
#![tactic(auto)]

mod end;

use bounded_text_words::WORDS;
use replay_input::source::{Reading, Start};
use std::fmt::Write;
use std::fs::File;
use text_output::{Text, put};
use text_sums::Sum;
use text_system::System;
use text_words::writing::Row;
use walk_ends::{Way, Ways};

#[derive(Clone, Copy)]
pub struct Asked<'a> {
    pub depth: u64,
    // which ending, from 1; None: all of them
    pub ending: Option<u64>,
    // the schedule that was run, to be told again, with the sum of its bytes
    pub file: &'a File,
    pub due: Sum,
}

fn header(text: &mut Text, depth: u64, sequences: u64, ways: &Ways) {
    let endings = ways.listed().len();
    let others = ways.unlisted();
    put!(
        text,
        "# walked: sequences {sequences}, acts at most {depth}, endings {endings}\n"
    );
    if others != 0 {
        put!(text, "# sequences that end otherwise {others}\n");
    }
}

fn heading(text: &mut Text, n: usize, way: &Way) {
    let acts = way.shortest.len();
    put!(
        text,
        "# ending {n}: sequences {}, acts of the shortest {acts}\n",
        way.times
    );
}

// A schedule has no edition: replay is to be told of it.
fn edition(text: &mut Text, number: u64) {
    if number != 1 {
        put!(text, "# for replay --edition {number}\n");
    }
}

// Apart from the schedule's own acts, which might be of the same worker.
fn in_words(text: &mut Text, acts: &[u8]) {
    text.text("# and from here\n");
    let mut row = Row::none();
    for act in acts {
        row.entry(text, walk_lists::word_of(*act), 0);
    }
    row.end(text);
}

fn missing(system: &System, asked: u64, endings: usize) {
    let mut room = [0; 128];
    let mut text = Text::new(&mut room);
    put!(
        text,
        "walk: there is no ending {asked}, only 1 to {endings}\n"
    );
    walk_lists::said::on_error(system, &text);
}

impl Asked<'_> {
    // The schedule that was run, from its making on.
    fn schedule(&self, system: &System, text: &mut Text) {
        let begun = Reading::begun(false, Start::of_file(), 0, self.due);
        replay_words::lines(system, self.file, false, begun, 0, text);
    }

    fn ending(&self, system: &System, text: &mut Text, m: [u64; WORDS], n: usize, way: &Way) {
        heading(text, n, way);
        end::lines(text, way.ends, walk_ways::left(m, way.shortest));
        edition(text, m[bounded_text_words::EDITION]);
        text.settle(system);
        self.schedule(system, text);
        in_words(text, way.shortest);
        text.settle(system);
    }

    // Of a list that has so many sequences of at most so many acts; answers whether there is the ending that was asked for.
    pub fn tell(
        &self,
        system: &System,
        text: &mut Text,
        m: [u64; WORDS],
        sequences: u64,
        list: &[u8],
    ) -> bool {
        let ways = walk_ways::count(system, m, list, None);
        let listed = ways.listed();
        if let Some(asked) = self.ending {
            let row = asked.wrapping_sub(1) as usize;
            let Some(way) = listed.get(row) else {
                missing(system, asked, listed.len());
                return false;
            };
            self.ending(system, text, m, row.wrapping_add(1), way);
            return true;
        }
        header(text, self.depth, sequences, &ways);
        for (row, way) in listed.iter().enumerate() {
            self.ending(system, text, m, row.wrapping_add(1), way);
            text.text("%\n");
            text.settle(system);
        }
        true
    }
}
