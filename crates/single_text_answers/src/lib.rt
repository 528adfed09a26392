// What the programs share that hand cases to the one-slot queue's face: rows of text (text_cases), each of which changes the numbers in hand, or hands the machine that they
// stand for to the face and writes a line.
//
//     = N ..         the numbers in hand (build)
//     e K            every code, with the item 0 and with 1, handed to begin, act or step: 0, 1 or 2
//     b, a, s F S    an entry handed to begin, act or step
//     r F S ..       a schedule run
//     m W            a making
//     c N            contents, in a buffer of N words, at most 2
//     j              every function
//     h CODE A B     an act of worker 0 at this place
//
// A row of any other letter, as `#`, is passed over.
#![tactic(auto)]

mod build;
mod entry;
mod judge;
mod making;

use build::NUMBERS;
use entry::Call;
use text_cases::nth;
use text_system::System;

fn in_hand(n: &[u64]) -> [u64; NUMBERS] {
    [
        nth(n, 0),
        nth(n, 1),
        nth(n, 2),
        nth(n, 3),
        nth(n, 4),
        nth(n, 5),
        nth(n, 6),
        nth(n, 7),
    ]
}

fn call_of(n: u64) -> Call {
    match n {
        0 => Call::Begin,
        1 => Call::Act,
        2 => Call::Step,
        _ => Call::Unnamed,
    }
}

// What a row writes.
fn tell(system: &System, letter: u8, h: [u64; NUMBERS], n: &[u64], label: &[u8]) {
    match letter {
        b'e' => entry::codes(system, call_of(nth(n, 0)), h),
        b'b' => entry::one(system, label, Call::Begin, h, nth(n, 0), nth(n, 1)),
        b'a' => entry::one(system, label, Call::Act, h, nth(n, 0), nth(n, 1)),
        b's' => entry::one(system, label, Call::Step, h, nth(n, 0), nth(n, 1)),
        b'r' => entry::run(system, label, h, n),
        b'm' => making::make(system, nth(n, 0)),
        b'c' => making::contents(system, label, h, nth(n, 0)),
        b'j' => judge::machine(system, label, h),
        b'h' => entry::held(
            system,
            build::with_place(h, 0, nth(n, 0), nth(n, 1), nth(n, 2)),
        ),
        _ => {}
    }
}

// One row, by the numbers in hand.
fn turn(system: &System, h: &mut [u64; NUMBERS], cases: &[u8], at: usize) {
    let mut list = [0u64; text_cases::NUMBERS];
    let count = text_cases::numbers(cases, at, &mut list);
    let letter = text_cases::letter(cases, at);
    let n = text_cases::first(&list, count);
    tell(system, letter, *h, n, text_cases::label(cases, at));
    if letter == b'=' {
        *h = in_hand(n);
    }
}

// Row after row, from these numbers on.
fn play(system: &System, begin: [u64; NUMBERS], cases: &[u8]) {
    let mut h = begin;
    let mut at = 0;
    for _ in 0..cases.len() {
        if cases.len() <= at {
            break;
        }
        turn(system, &mut h, cases, at);
        at = text_cases::next(cases, at);
    }
}

// The rows on standard input.
pub fn play_input(system: &System) {
    let mut text = [0u8; 65536];
    let n = text_system::streams::read_full(system, &mut text);
    play(system, build::base(), &text[..n]);
}
