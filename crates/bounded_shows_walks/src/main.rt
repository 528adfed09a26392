// Walks: each refusal in its order, lists that are short enough to be read, and what is left of the lent buffer, whose bytes 77 marks. The
// file `stdout` is written from document 02, item 10.
#![tactic(auto)]

use bounded_text_words::WORDS;
use queue_walks::Walked;
use text_output::Text;
use text_system::System;

fn say_size(text: &mut Text, s: Result<Walked, u64>) {
    match s {
        Ok(w) => text.form(" size # in #", &[w.sequences, w.bytes as u64]),
        Err(refusal) => text.form(" size refused #", &[refusal]),
    }
}

fn say_told(text: &mut Text, t: Result<u64, u64>) {
    match t {
        Ok(n) => text.form(", walk #:", &[n]),
        Err(refusal) => text.form(", walk refused #:", &[refusal]),
    }
}

// The machine in hand, whose check is dear, is made here and used up.
fn size(m: [u64; WORDS], depth: u64) -> Result<Walked, u64> {
    bounded_walks::size(bounded_text_faces::machine::read(m), depth)
}

fn walk(m: [u64; WORDS], depth: u64, list: &mut [u8]) -> Result<u64, u64> {
    bounded_walks::walk(bounded_text_faces::machine::read(m), depth, list)
}

// LABEL, depth D, room R: what `size` and `walk` answer. The first bytes of the buffer are lent, and the whole of it is shown.
fn line(system: &System, label: &str, m: [u64; WORDS], depth: u64, room: usize) {
    let mut memory = [0; 512];
    let mut text = Text::new(&mut memory);
    let mut buffer = [77; 8];
    text.text(label);
    text.form(", depth #, room #:", &[depth, room as u64]);
    say_size(&mut text, size(m, depth));
    say_told(&mut text, walk(m, depth, &mut buffer[..room.min(8)]));
    for b in buffer {
        text.form(" #", &[u64::from(b)]);
    }
    text.end_line(system);
}

// Of one slot and of the first edition, after this schedule.
fn machine(workers: u64, schedule: &[u64]) -> [u64; WORDS] {
    let fresh = bounded_text_faces::make(1, workers, 1).words;
    bounded_text_faces::run(fresh, schedule).words
}

fn limits(system: &System) {
    let blank = [0; WORDS];
    line(system, "broken", blank, 13, 0);
    let four = machine(4, &[6, 0, 22, 0, 38, 0, 54, 0]);
    line(system, "four closing", four, 13, 0);
    line(system, "four closing", four, 1, 0);
    let three = machine(3, &[6, 0, 22, 0, 38, 0]);
    line(system, "three closing", three, 13, 0);
    line(system, "three closing", three, 1, 8);
}

fn idlers(system: &System, m: [u64; WORDS]) {
    line(system, "one of two idle", m, 13, 0);
    line(system, "one of two idle", m, 1, 0);
    let full = bounded_text_words::with(m, bounded_text_words::METER, 4294967295);
    line(system, "one of two idle, meter full", full, 1, 0);
}

fn meters(system: &System, m: [u64; WORDS]) {
    let full = bounded_text_words::with(m, bounded_text_words::METER, 4294967295);
    line(system, "two closing, meter full", full, 1, 0);
    line(system, "two closing, meter full", full, 0, 8);
    let last = bounded_text_words::with(m, bounded_text_words::METER, 4294967294);
    line(system, "two closing, one act left", last, 2, 0);
    line(system, "two closing, one act left", last, 1, 3);
    line(system, "two closing, one act left", last, 1, 4);
}

// Besides, one worker with a push at P3, whose exchange is weak.
fn lists(system: &System, m: [u64; WORDS]) {
    line(system, "two closing", m, 2, 5);
    line(system, "two closing", m, 2, 6);
    line(system, "two closing", m, 12, 8);
    line(system, "push at P3", machine(1, &[0, 5, 8, 0, 8, 0]), 1, 8);
}

fn main(rt: HostRuntime) {
    let system = text_system::of(rt);
    limits(&system);
    idlers(&system, machine(2, &[6, 0]));
    let m = machine(2, &[6, 0, 22, 0]);
    meters(&system, m);
    lists(&system, m);
}
