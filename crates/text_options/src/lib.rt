// The arguments of a program, read by a table of its options; knows no program.
//
// A value stands in the next argument, or behind an = in the same one. Behind -- all are names.
#![tactic(auto)]

use std::fmt::Write;
use text_numbers::Scan;
use text_output::{Text, put};
use text_system::System;

// How many options a table may have, and how many names are kept.
pub const MOST: usize = 20;

pub const NAMES: usize = 3;

// What value is wanted behind an option.
#[derive(Clone, Copy)]
pub enum Wanted {
    Nothing,
    Number,
    NumberFrom1,
    OneOf(&'static [&'static str]),
    // it is an option of another program alone
    OfAnother,
}

// An option's name, and what it wants.
pub type Known = (&'static str, Wanted);

// What is wrong with the arguments: the arguments by their numbers, and the options, that it is about.
#[derive(Clone, Copy)]
enum Wrong {
    // of no use, or one name too many
    Unknown(usize),
    OneMore(usize),
    // a value where there is none, none where there is one, another one
    NoValue(Known, usize),
    Lacking(Known),
    NotIt(Known, usize),
    // this option does not go with that one, needs that one, needs the third beside that one
    Clash(&'static str, &'static str),
    Needs(&'static str, &'static str),
    Beside(&'static str, &'static str, &'static str),
    OfAnother(Known),
}

// An option as it is given: the last argument that gives it, and the one that its value ends, the same or the next one; its value, which an earlier argument may have given.
#[derive(Clone, Copy)]
struct Given {
    from: usize,
    to: usize,
    value: Option<u64>,
}

#[derive(Clone, Copy)]
pub struct Arguments {
    table: &'static [Known],
    // of each option, in the order of the table
    given: [Option<Given>; MOST],
    // the option that waits for its value
    waiting: Option<usize>,
    // the numbers of the arguments that are names, of which there are so many
    names: [usize; NAMES],
    count: usize,
    // the last of them that is a - and stands before any --
    dash: Option<usize>,
    // a -- was met
    only_names: bool,
    wrong: Option<Wrong>,
}

// Read as the numbers of a schedule are.
fn number_in(word: &[u8]) -> Option<u64> {
    let mut numbers = [0; 2];
    let mut scan = Scan::start(1);
    let digits = scan.read_piece(false, word, &mut numbers, 0);
    let end = scan.read_piece(false, b"\n", &mut numbers, digits.count);
    if digits.stop.is_some() || end.stop.is_some() || end.count != 1 {
        return None;
    }
    Some(numbers[0])
}

// The number, or how many words of the list stand before the one that is given.
fn value_in(wanted: Wanted, word: &[u8]) -> Option<u64> {
    match wanted {
        Wanted::Number => number_in(word),
        Wanted::NumberFrom1 => number_in(word).filter(|n| *n != 0),
        Wanted::OneOf(words) => {
            let n = words.iter().position(|w| w.as_bytes() == word)?;
            Some(n as u64)
        }
        Wanted::Nothing | Wanted::OfAnother => None,
    }
}

// A word cut at its =: what stands before it, and the value behind it.
fn cut(word: &[u8]) -> (&[u8], Option<&[u8]>) {
    match word.iter().position(|b| *b == b'=') {
        Some(i) => (&word[..i], Some(&word[i + 1..])),
        None => (word, None),
    }
}

impl Arguments {
    fn none(table: &'static [Known]) -> Arguments {
        Arguments {
            table,
            given: [None; MOST],
            waiting: None,
            names: [0; NAMES],
            count: 0,
            dash: None,
            only_names: false,
            wrong: None,
        }
    }

    // The first that is wrong stays.
    fn fails(&mut self, wrong: Wrong) {
        if self.wrong.is_none() {
            self.wrong = Some(wrong);
        }
    }

    fn given(&self, n: usize) -> Option<Given> {
        if n < MOST { self.given[n] } else { None }
    }

    fn given_by(&self, name: &str) -> Option<Given> {
        self.given(self.table.iter().position(|known| known.0 == name)?)
    }

    fn give(&mut self, n: usize, given: Given) {
        if n < MOST {
            self.given[n] = Some(given);
        }
    }

    // The value of the n-th option, in the i-th argument.
    fn take_value(&mut self, i: usize, n: usize, word: &[u8]) {
        self.waiting = None;
        if n < self.table.len() {
            let known = self.table[n];
            let value = value_in(known.1, word);
            let from = self.given(n).map_or(i, |g| g.from);
            self.give(n, Given { from, to: i, value });
            if value.is_none() {
                self.fails(Wrong::NotIt(known, i));
            }
        }
    }

    // The n-th option in the i-th argument, with what stands behind its =.
    fn take_option(&mut self, i: usize, n: usize, known: Known, value: Option<&[u8]>) {
        let before = match self.given(n) {
            Some(g) => g.value,
            None => None,
        };
        self.give(
            n,
            Given {
                from: i,
                to: i,
                value: before,
            },
        );
        match (known.1, value) {
            (Wanted::Nothing, None) => {}
            (Wanted::Nothing, Some(_)) => self.fails(Wrong::NoValue(known, i)),
            (Wanted::OfAnother, _) => self.fails(Wrong::OfAnother(known)),
            (_, None) => self.waiting = Some(n),
            (_, Some(word)) => self.take_value(i, n, word),
        }
    }

    // A name, where there is room for one more.
    fn take_name(&mut self, most: usize, i: usize) {
        let k = self.count;
        if k < most && k < NAMES {
            self.names[k] = i;
            self.count = k + 1;
        } else {
            self.fails(Wrong::OneMore(i));
        }
    }

    // The i-th argument, of which so many may be names.
    fn take(&mut self, most: usize, i: usize, word: &[u8]) {
        if let Some(n) = self.waiting {
            return self.take_value(i, n, word);
        }
        if self.only_names || !word.starts_with(b"-") {
            return self.take_name(most, i);
        }
        let (name, value) = cut(word);
        for (n, known) in self.table.iter().enumerate() {
            if known.0.as_bytes() == name {
                return self.take_option(i, n, *known, value);
            }
        }
        match word {
            b"-" => {
                self.dash = Some(i);
                self.take_name(most, i);
            }
            b"--" => self.only_names = true,
            _ => self.fails(Wrong::Unknown(i)),
        }
    }

    pub fn is_wrong(&self) -> bool {
        self.wrong.is_some()
    }

    pub fn is_given(&self, name: &str) -> bool {
        self.given_by(name).is_some()
    }

    // The number of the last argument that gives the option.
    pub fn place(&self, name: &str) -> Option<usize> {
        Some(self.given_by(name)?.from)
    }

    // The number that is the value of the option, or how many words of its list stand before the one that is given.
    pub fn value(&self, name: &str) -> Option<u64> {
        self.given_by(name)?.value
    }

    // How many names there are, and the number of the argument that is the k-th.
    pub fn count(&self) -> usize {
        self.count
    }

    pub fn name(&self, k: usize) -> Option<usize> {
        if k < self.count && k < NAMES {
            return Some(self.names[k]);
        }
        None
    }

    // A - is of no use.
    pub fn refuse_dash(&mut self) {
        if let Some(i) = self.dash {
            self.fails(Wrong::Unknown(i));
        }
    }

    // Where it holds, none of these options goes with the other one, which is given.
    pub fn clashes(&mut self, other: &'static str, options: &[&'static str], it: bool) {
        for name in options {
            if it && self.is_given(name) {
                self.fails(Wrong::Clash(name, other));
            }
        }
    }

    pub fn needs(&mut self, name: &'static str, other: &'static str) {
        if self.is_given(name) && !self.is_given(other) {
            self.fails(Wrong::Needs(name, other));
        }
    }

    // Beside the other option, which is given, it needs the third.
    pub fn needs_beside(&mut self, name: &'static str, other: &'static str, third: &'static str) {
        if self.is_given(name) && self.is_given(other) && !self.is_given(third) {
            self.fails(Wrong::Beside(name, other, third));
        }
    }
}

// The arguments, of which so many may be names.
pub fn read(system: &System, table: &'static [Known], most: usize) -> Arguments {
    let mut a = Arguments::none(table);
    for i in 1..text_system::arguments::count(system) {
        let mut word = [0u8; 4096];
        let n = text_system::arguments::read(system, i, &mut word);
        a.take(most, i, &word[..n]);
    }
    if let Some(n) = a.waiting {
        if n < table.len() {
            a.fails(Wrong::Lacking(table[n]));
        }
    }
    a
}

// ---- what is wrong, in one line

fn argument(system: &System, text: &mut Text, i: usize) {
    let mut word = [0u8; 4096];
    let n = text_system::arguments::read(system, i, &mut word);
    text_names::shown(text, &word[..n]);
}

// What value is wanted.
fn choices(text: &mut Text, wanted: Wanted) {
    match wanted {
        Wanted::Number => text.text("a number"),
        Wanted::NumberFrom1 => text.text("a number from 1"),
        Wanted::OneOf(words) => {
            text.text("one of ");
            for (k, word) in words.iter().enumerate() {
                if k != 0 {
                    text.text(", ");
                }
                text.text(word);
            }
        }
        Wanted::Nothing | Wanted::OfAnother => {}
    }
}

impl Arguments {
    // The value that an argument gives: what stands behind its =, or all of it where the option was given by the argument before.
    fn tell_value(&self, system: &System, text: &mut Text, name: &str, i: usize) {
        let mut word = [0u8; 4096];
        let k = text_system::arguments::read(system, i, &mut word);
        let whole = &word[..k];
        match cut(whole) {
            (_, Some(value)) if self.place(name) == Some(i) => text_names::shown(text, value),
            _ => text_names::shown(text, whole),
        }
    }

    // An option as it was given, with its value.
    fn tell_given(&self, system: &System, text: &mut Text, name: &str) {
        if let Some(g) = self.given_by(name) {
            argument(system, text, g.from);
            if g.from != g.to {
                text.byte(b' ');
                argument(system, text, g.to);
            }
        }
    }

    fn tell_wrong(&self, system: &System, text: &mut Text, wrong: Wrong, foreign: &str) {
        match wrong {
            Wrong::Unknown(i) => {
                argument(system, text, i);
                text.text(" is no option");
            }
            Wrong::OneMore(i) => {
                argument(system, text, i);
                text.text(" is one name too many");
            }
            Wrong::NoValue((name, _), i) => {
                put!(text, "{name} takes no value: ");
                argument(system, text, i);
            }
            Wrong::Lacking((name, wanted)) => {
                put!(text, "{name} wants ");
                choices(text, wanted);
            }
            Wrong::NotIt((name, wanted), i) => {
                put!(text, "{name} wants ");
                choices(text, wanted);
                text.text(", not ");
                self.tell_value(system, text, name, i);
            }
            Wrong::Clash(name, other) => {
                put!(text, "{name} does not go with ");
                self.tell_given(system, text, other);
            }
            Wrong::Needs(name, other) => {
                put!(text, "{name} needs {other}");
            }
            Wrong::Beside(name, other, third) => {
                put!(text, "{name} beside ");
                self.tell_given(system, text, other);
                put!(text, " needs {third}");
            }
            Wrong::OfAnother((name, _)) => {
                put!(text, "{name}{foreign}");
            }
        }
    }

    // PROGRAM: what is wrong, on standard error; of an option of another program this.
    pub fn complain(&self, system: &System, program: &str, foreign: &str) {
        let Some(wrong) = self.wrong else {
            return;
        };
        let mut room = [0u8; LINE];
        let mut text = Text::new(&mut room);
        put!(text, "{program}: ");
        self.tell_wrong(system, &mut text, wrong, foreign);
        text.text(" (see --help)\n");
        text_system::streams::put_error(system, text.as_bytes());
    }
}

// Room for an option and its value as they were given.
const LINE: usize = 2 * text_names::ROOM + 512;

// The version of the programs, as hosts/rust/Cargo.toml has it; answers whether all of it was written.
pub fn version(system: &System, program: &str) -> bool {
    let mut room = [0u8; 128];
    let mut text = Text::new(&mut room);
    put!(
        text,
        "{program} 0.1.0 of Fernmoldew, the port of concurrent-queue 2.5.0\n"
    );
    text_system::streams::put(system, text.as_bytes())
}
