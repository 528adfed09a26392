// A list of sequences: a byte for the length of each, then a byte for each act.
#![tactic(auto)]

ghost use Rattle.std.specs.Prelude.{length};
ghost use Rattle.std.specs.Iterator.{at_most};

pub mod said;

use text_output::Text;
use text_system::System;

// The schedule's word of an act, 16 * worker + code.
pub fn word_of(act: u8) -> u64 {
    16 * (act as u64 % 16) + act as u64 / 16
}

// The acts of each, with the place of its first byte.
#[derive(Drop)]
pub struct Sequences<'a> {
    rest: &'a [u8],
    place: usize,
}

impl<'a> Sequences<'a> {
    // The last ends with the list at the latest.
    pub fn of(list: &'a [u8]) -> Sequences<'a> {
        Sequences {
            rest: list,
            place: 0,
        }
    }
}

impl<'a> Iterator for Sequences<'a> {
    type Item = (usize, &'a [u8]);

    ghost remaining = { λ s. at_most (length s.rest.now) };

    fn next(&mut self) -> Option<(usize, &'a [u8])> {
        let (first, after) = self.rest.split_first()?;
        let n = (*first as usize).min(after.len());
        let place = self.place;
        self.rest = &after[n..];
        self.place = place.wrapping_add(1 + n);
        Some((place, &after[..n]))
    }
}

// As the entries of a schedule.
pub fn entries(text: &mut Text, acts: &[u8]) {
    for (i, act) in acts.iter().enumerate() {
        if i > 0 {
            text.byte(b' ');
        }
        text.form("# 0", &[word_of(*act)]);
    }
}

// Every sequence, one a line.
pub fn lines(system: &System, text: &mut Text, list: &[u8]) {
    for (_, acts) in Sequences::of(list) {
        entries(text, acts);
        text.byte(b'\n');
        text.settle(system);
    }
}
