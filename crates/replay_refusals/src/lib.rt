// A refused entry, on standard error: where it was written, and why it is refused. The schedule is looked through once more for it: first piece by piece, to the
// piece that has the entry, then byte by byte, to its line.
#![tactic(auto)]

use replay_input::source::{BYTES, Input, NUMBERS, Reading};
use replay_survey::{Played, Whole};
use std::fmt::Write;
use std::fs::File;
use text_output::{Text, put};
use text_system::System;
use text_words::reading::Form;
use text_words::writing::Row;

const WORKERS: usize = 64;

// Of a worker: the place of its last entry, and of the last that began a call.
#[derive(Clone, Copy)]
struct Note {
    last: Option<u64>,
    begun: Option<u64>,
}

const NO_NOTE: Note = Note {
    last: None,
    begun: None,
};

// The two numbers of an entry.
#[derive(Clone, Copy)]
struct Pair {
    first: u64,
    second: u64,
}

// Where a look stands: so many pairs of numbers were read, of which the first makes the machine.
#[derive(Clone, Copy)]
struct Look {
    // the entry that is looked for is this pair, and what was met of it
    target: u64,
    met: Option<Pair>,
    reading: Reading,
    pairs: u64,
    // the line of the entry that is read: of its first number, or of its row, which began behind so many pairs and has so many
    line: Option<u64>,
    row: u64,
    times: u64,
    // where a look byte by byte can begin: no pair and no row was begun there
    again: Reading,
    again_pairs: u64,
    notes: [Note; WORKERS],
}

impl Look {
    fn start(begun: Reading, pairs: u64, target: u64) -> Look {
        Look {
            target,
            met: None,
            reading: begun,
            pairs,
            line: None,
            row: 0,
            times: 1,
            again: begun,
            again_pairs: pairs,
            notes: [NO_NOTE; WORKERS],
        }
    }

    fn restart(&mut self) {
        *self = Look {
            notes: self.notes,
            ..Look::start(self.again, self.again_pairs, self.target)
        };
    }

    // An entry with this number, which is this pair.
    fn note(&mut self, pair: u64, first: u64) {
        if pair == 0 {
            return;
        }
        if let Some(note) = self.notes.get_mut((first / 16) as usize) {
            note.last = Some(pair - 1);
            if first % 16 < 8 {
                note.begun = note.last;
            }
        }
    }

    // What comes before the entry of the pairs that were read: of the list, and the last of a row of acts that found no room there.
    fn note_all(&mut self, r: &Reading, pairs: &[[u64; 2]]) {
        for (k, pair) in pairs.iter().enumerate() {
            let n = self.pairs.saturating_add(k as u64);
            if n < self.target {
                self.note(n, pair[0]);
            }
        }
        let owed = self.pairs.saturating_add(pairs.len() as u64);
        let end = owed.saturating_add(r.owing()).min(self.target);
        if owed < end {
            self.note(end - 1, r.words.first);
        }
    }

    // The entry, if it is among the pairs that were read: of the list, or of a row that found no room there.
    fn met_in(&self, r: &Reading, pairs: &[[u64; 2]]) -> Option<Pair> {
        let count = pairs.len() as u64;
        let k = self.target.wrapping_sub(self.pairs);
        if k < count {
            let [first, second] = pairs[k as usize];
            return Some(Pair { first, second });
        }
        if k < count.saturating_add(r.owing()) {
            return Some(Pair {
                first: r.words.first,
                second: r.words.item,
            });
        }
        None
    }

    // One reading more.
    fn turn(&mut self, input: &mut Input) {
        let mut r = self.reading;
        r.next(input);
        let list = &mut *input.list;
        let count = r.count.min(list.len());
        let (pairs, _) = list[..count].as_chunks::<2>();
        self.note_all(&r, pairs);
        self.row = self.pairs;
        self.times = (pairs.len() as u64).saturating_add(r.owing());
        // before a pair whose first number is not read
        if self.reading.count % 2 == 0 {
            self.line = Some(self.reading.words.scan.line);
            self.again = self.reading;
            self.again_pairs = self.pairs;
        }
        self.met = self.met_in(&r, pairs);
        r.owing_none();
        self.reading = r;
        self.pairs = self.pairs.saturating_add(self.times);
    }

    // By pieces as long as the bytes, to the one that has the entry or to the end.
    fn reach(&mut self, input: &mut Input) {
        for _ in 0..u64::MAX {
            if self.met.is_some() || self.reading.ended.is_some() {
                break;
            }
            self.turn(input);
        }
    }
}

// The entry at this place, and the line where it was written.
fn looked(system: &System, file: &File, many: bool, begun: Reading, place: u64) -> Look {
    let mut bytes = [0u8; BYTES];
    let mut list = [1u64; NUMBERS];
    let mut look = Look::start(begun, 0, place.saturating_add(1));
    {
        let mut input = Input {
            system,
            file,
            many,
            bytes: &mut bytes,
            list: &mut list,
        };
        look.reach(&mut input);
    }
    if begun.tape.is_none() {
        // byte by byte; a queue without a capacity has a 1 before its first number
        list[0] = 1;
        let mut byte = [0u8; 1];
        let mut input = Input {
            system,
            file,
            many,
            bytes: &mut byte,
            list: &mut list,
        };
        look.restart();
        look.reach(&mut input);
    }
    look
}

// ---- in one line

// NAME:LINE: and without a line NAME:
fn put_place(text: &mut Text, name: &[u8], line: Option<u64>) {
    text_names::shown(text, name);
    if let Some(n) = line {
        put!(text, ":{n}");
    }
    text.text(": ");
}

// An entry or a row of acts as it is written in words, in quotes.
fn quoted(text: &mut Text, pair: Pair, times: u64) {
    let mut room = [0u8; 128];
    let mut line = Text::new(&mut room);
    let mut row = Row::none();
    row.entry(&mut line, pair.first, pair.second);
    if row.times != 0 {
        row.times = times;
    }
    row.end(&mut line);
    text.byte(b'\'');
    if let [entry @ .., b'\n'] = line.as_bytes() {
        text.bytes(entry);
    }
    text.byte(b'\'');
}

const ORDINALS: [&str; 11] = [
    "the",
    "the first",
    "the second",
    "the third",
    "the fourth",
    "the fifth",
    "the sixth",
    "the seventh",
    "the eighth",
    "the ninth",
    "the tenth",
];

// the third act of, of a row of several
fn ordinal(text: &mut Text, n: u64) {
    if 10 < n {
        put!(text, "act {n} of ");
        return;
    }
    text.nth(&ORDINALS, n as usize, &[]);
    text.text(" act of ");
}

// What each worker answered, by its code.
const ANSWERS: [&str; 11] = [
    "",
    "pushed ",
    "empty ",
    "closed ",
    "yes ",
    "no ",
    "full ",
    "closed ",
    "displaced # ",
    "popped # ",
    "len # ",
];

// it answered closed at entry 14
fn answered(text: &mut Text, w: usize, answers: &[u64], entry: u64) {
    let (all, _) = answers.as_chunks::<2>();
    let [code, number] = all.get(w).copied().unwrap_or([0, 0]);
    text.text(": it answered ");
    text.nth(&ANSWERS, code as usize, &[number]);
    put!(text, "at entry {entry}");
}

impl Look {
    fn in_words(&self, text: &mut Text, pair: Pair) {
        if 2 <= self.times {
            ordinal(text, self.target.wrapping_sub(self.row).saturating_add(1));
        }
        quoted(text, pair, self.times.max(1));
    }

    // What was written there.
    fn written(&self, text: &mut Text, pair: Pair) {
        let entry = self.target.wrapping_sub(1);
        if self.reading.words.form == Some(Form::Words) {
            self.in_words(text, pair);
        } else if self.reading.tape.is_some() {
            put!(text, "entry {entry}, ");
            quoted(text, pair, 1);
        } else {
            put!(text, "entry {entry}, '{} {}'", pair.first, pair.second);
        }
    }

    // NAME:LINE: what was written there:
    fn entry(&self, text: &mut Text, name: &[u8], pair: Pair) {
        let line = if self.reading.tape.is_some() {
            None
        } else {
            self.line
        };
        put_place(text, name, line);
        self.written(text, pair);
        text.text(": ");
    }

    // What the schedule says of the worker besides.
    fn besides(&self, text: &mut Text, refusal: u64, w: u64, workers: u64, answers: &[u64]) {
        let i = (w % 64) as usize;
        let note = self.notes[i];
        match refusal {
            3 => {
                put!(text, ": there are {workers}");
            }
            4 => {
                if let Some(entry) = note.begun {
                    put!(text, ": with the call of entry {entry}");
                }
            }
            5 => match note.last {
                Some(entry) => answered(text, i, answers, entry),
                None => text.text(": it has begun no call"),
            },
            _ => {}
        }
    }
}

// refused R, and why
fn refused(text: &mut Text, refusal: u64, w: u64) {
    put!(text, "refused {refusal}, ");
    text_explain::words::why(text, refusal, w);
}

// A line of standard error.
fn out(system: &System, text: &mut Text) {
    text.byte(b'\n');
    text_system::streams::put_error(system, text.as_bytes());
}

// Of the whole: there is no machine, or no pair for a number.
fn tell_whole(
    system: &System,
    name: &[u8],
    refusal: u64,
    whole: Whole,
    before: usize,
    edition: u64,
) {
    let mut room = [0u8; replay_input::say::LINE];
    let mut text = Text::new(&mut room);
    put_place(&mut text, name, None);
    refused(&mut text, refusal, 0);
    if refusal == 6 {
        text.text(": ");
        if before == 0 {
            put!(text, "capacity {}, ", whole.capacity);
        }
        put!(text, "workers {}", whole.workers);
        if before == 0 {
            put!(text, ", edition {edition}");
        }
    }
    out(system, &mut text)
}

// The file's line, what was written there and why it is refused. A file that has changed meanwhile may have no such entry: then nothing is said.
pub fn tell(
    system: &System,
    name: &[u8],
    file: &File,
    many: bool,
    begun: Reading,
    whole: Whole,
    played: &Played,
    before: usize,
    edition: u64,
) {
    let refusal = played.refusal;
    if refusal == 6 || refusal == 11 {
        return tell_whole(system, name, refusal, whole, before, edition);
    }
    let look = looked(system, file, many, begun, played.place);
    if let Some(pair) = look.met {
        let mut room = [0u8; replay_input::say::LINE];
        let mut text = Text::new(&mut room);
        let w = pair.first / 16;
        look.entry(&mut text, name, pair);
        refused(&mut text, refusal, w);
        look.besides(&mut text, refusal, w, whole.workers, &played.answers);
        out(system, &mut text);
    }
}

// Of an entry that is refused for what this text says, the same line up to there. Where a file that has changed has no such entry, it has its name alone.
pub fn tell_of(
    system: &System,
    name: &[u8],
    file: &File,
    begun: Reading,
    entry_place: u64,
    why: &[u8],
) {
    let mut room = [0u8; replay_input::say::LINE];
    let mut text = Text::new(&mut room);
    let look = looked(system, file, false, begun, entry_place);
    match look.met {
        Some(pair) => look.entry(&mut text, name, pair),
        None => put_place(&mut text, name, None),
    }
    text.bytes(why);
    out(system, &mut text)
}

// Whether this number refuses an entry, and no whole.
pub fn is_of_entry(refusal: u64) -> bool {
    matches!(refusal, 3 | 4 | 5 | 7 | 8 | 9)
}
