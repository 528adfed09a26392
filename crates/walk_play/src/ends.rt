// A line for each way in which the sequences of a list end: of each worker, and of all together.
use bounded_text_words::WORDS;
use text_output::Text;
use text_system::System;
use walk_ends::{End, Way};

// wK=E
fn worker(text: &mut Text, w: usize, end: End) {
    text.form("w#=", &[w as u64]);
    match end {
        End::Busy => text.text("busy"),
        End::Idle(code, item) => bounded_text_codes::place(text, code, item, 0),
    }
}

// Of one worker alone, or of all.
fn name(text: &mut Text, alone: bool, way: &Way) {
    if !alone {
        text.text("ends");
    }
    for (w, end) in way.ends.iter().enumerate() {
        if let Some(end) = end {
            if !alone {
                text.byte(b' ');
            }
            worker(text, w, *end);
        }
    }
}

fn row(system: &System, text: &mut Text, alone: bool, way: &Way) {
    name(text, alone, way);
    text.form(" sequences=# shortest", &[way.times]);
    if !way.shortest.is_empty() {
        text.byte(b' ');
        walk_lists::entries(text, way.shortest);
    }
    text.byte(b'\n');
    text.settle(system);
}

// The ways of this worker, or of all together. Nothing more is counted once the text is lost.
fn ways(system: &System, text: &mut Text, m: [u64; WORDS], list: &[u8], worker: Option<usize>) {
    if text.is_lost() {
        return;
    }
    let ways = walk_ways::count(system, m, list, worker);
    for way in ways.listed() {
        row(system, text, worker.is_some(), way);
    }
    if ways.unlisted() != 0 {
        text.form("unlisted sequences=#\n", &[ways.unlisted() as u64]);
    }
}

// Of each of at most three workers, then of all.
pub fn lines(system: &System, text: &mut Text, m: [u64; WORDS], list: &[u8]) {
    let count = m[bounded_text_words::COUNT].min(3) as usize;
    for w in 0..count {
        ways(system, text, m, list, Some(w));
    }
    ways(system, text, m, list, None);
}
