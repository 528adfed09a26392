// What the programs share that hand cases to the ring's face: rows of text (text_cases), each of which changes the machine in hand or hands
// it to the face and writes a line.
//
//     = I N ..        the word I of the machine is N (bounded_text_words has the order), and so on
//     w I CODE A B    record I is at a place: its code (bounded_codes) and the words that it holds
//     m C W E         a machine of capacity C, with W workers, of edition E
//     f               of every slot i the stamp i + 1 and the value i + 1000
//     g F S ..        a schedule run
//
//     b, a, s F S     an entry handed to begin, act or step; the machine stays
//     r F S ..        a schedule run; the machine stays
//     R F S ..        a schedule run, and the slots then; the machine goes on from there
//     S F S ..        the same, and the machine stays
//     j I N ..        with these words in it, handed to every function; the machine stays
//     p CODE A B      with worker 0 at this place, handed to every function; the machine stays
//     c N             contents, in a buffer of N words: at most 3, or 1023 to 1025
//     M C W E         a making; the machine stays
//     o               the workers 0, 15 and 16, and the slots
//
// A row of any other letter, as `#`, is passed over.
#![tactic(auto)]

pub mod contents;
pub mod entry;
pub mod judge;
pub mod making;

use bounded_text_faces::Call;
use bounded_text_words::{RECORDS, SLOTS, WORDS};
use text_cases::nth;
use text_system::System;

pub fn set(m: [u64; WORDS], pairs: &[u64]) -> [u64; WORDS] {
    let mut after = m;
    for i in 0..pairs.len() / 2 {
        let at = pairs[2 * i] as usize;
        if at < WORDS {
            after[at] = pairs[2 * i + 1];
        }
    }
    after
}

pub fn stood(m: [u64; WORDS], i: u64, code: u64, first: u64, second: u64) -> [u64; WORDS] {
    let mut after = m;
    if i < 16 {
        let at = RECORDS + 5 * (i as usize);
        after[at] = code;
        after[at + 1] = first;
        after[at + 2] = second;
    }
    after
}

fn filled(m: [u64; WORDS]) -> [u64; WORDS] {
    let mut after = m;
    for i in 0..1024 {
        after[SLOTS + 2 * i] = i as u64 + 1;
        after[SLOTS + 2 * i + 1] = i as u64 + 1000;
    }
    after
}

// The machine after a row.
pub fn after(letter: u8, m: [u64; WORDS], n: &[u64]) -> [u64; WORDS] {
    match letter {
        b'=' => set(m, n),
        b'w' => stood(m, nth(n, 0), nth(n, 1), nth(n, 2), nth(n, 3)),
        b'm' => bounded_text_faces::make(nth(n, 0), nth(n, 1), nth(n, 2)).words,
        b'f' => filled(m),
        b'g' | b'R' => bounded_text_faces::run(m, n).words,
        _ => m,
    }
}

fn tell_more(system: &System, letter: u8, m: [u64; WORDS], n: &[u64], label: &[u8]) {
    match letter {
        b'j' => judge::machine(system, label, set(m, n)),
        b'p' => judge::place(system, stood(m, 0, nth(n, 0), nth(n, 1), nth(n, 2))),
        b'c' => contents::told(system, label, m, nth(n, 0)),
        b'M' => making::make(system, nth(n, 0), nth(n, 1), nth(n, 2)),
        b'o' => making::workers(system, m),
        _ => {}
    }
}

// What a row writes.
fn tell(system: &System, letter: u8, m: [u64; WORDS], n: &[u64], label: &[u8]) {
    match letter {
        b'b' => entry::one(system, label, Call::Begin, m, nth(n, 0), nth(n, 1)),
        b'a' => entry::one(system, label, Call::Act, m, nth(n, 0), nth(n, 1)),
        b's' => entry::one(system, label, Call::Step, m, nth(n, 0), nth(n, 1)),
        b'r' => entry::run(system, label, m, n, false),
        b'R' | b'S' => entry::run(system, label, m, n, true),
        _ => tell_more(system, letter, m, n, label),
    }
}

// One row, by the machine in hand.
fn turn(system: &System, m: &mut [u64; WORDS], cases: &[u8], at: usize) {
    let mut list = [0u64; text_cases::NUMBERS];
    let count = text_cases::numbers(cases, at, &mut list);
    let letter = text_cases::letter(cases, at);
    let n = text_cases::first(&list, count);
    tell(system, letter, *m, n, text_cases::label(cases, at));
    *m = after(letter, *m, n);
}

// Row after row; answers the machine that is then in hand.
pub fn play(system: &System, begin: [u64; WORDS], cases: &[u8]) -> [u64; WORDS] {
    let mut m = begin;
    let mut at = 0;
    for _ in 0..cases.len() {
        if cases.len() <= at {
            break;
        }
        turn(system, &mut m, cases, at);
        at = text_cases::next(cases, at);
    }
    m
}

// The rows on standard input, from a machine of zeros on.
pub fn play_input(system: &System) {
    let mut text = [0u8; 65536];
    let n = text_system::streams::read_full(system, &mut text);
    play(system, [0; WORDS], &text[..n]);
}
