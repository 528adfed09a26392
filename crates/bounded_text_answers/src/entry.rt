// One entry or one schedule handed to a machine, after a label.
use bounded_text_faces::{Call, Left};
use bounded_text_words::WORDS;
use text_output::Text;
use text_system::System;

// What stands after an accepted entry, or whether a refused one left the machine
fn outcome(text: &mut Text, worker: u64, before: [u64; WORDS], l: Left) {
    if l.refusal == 0 {
        bounded_text_words::text::standing(text, worker, l.words);
    } else if before == l.words {
        text.text("unchanged");
    } else {
        text.text("CHANGED");
    }
}

// LABEL FUNCTION FIRST SECOND: REFUSAL, and what came of it
pub fn one(system: &System, label: &[u8], call: Call, m: [u64; WORDS], first: u64, second: u64) {
    let mut room = [0u8; 512];
    let mut text = Text::new(&mut room);
    let l = bounded_text_faces::enter(call, m, first, second);
    text.bytes(label);
    text.text(match call {
        Call::Begin => "begin",
        Call::Act => "act",
        Call::Step => "step",
    });
    text.form(" # #: # ", &[first, second, l.refusal]);
    outcome(&mut text, first / 16, m, l);
    text.end_line(system);
}

// contents x y ..., through a buffer that any list fits
fn contents(system: &System, text: &mut Text, m: [u64; WORDS]) {
    let mut items = [0u64; 1024];
    let t = bounded_text_faces::contents(m, &mut items);
    bounded_text_words::text::told(system, text, "contents", &items, t);
}

pub fn slots(system: &System, m: [u64; WORDS]) {
    let mut room = [0u8; 4096];
    let mut text = Text::new(&mut room);
    bounded_text_words::text::slots(system, &mut text, m);
    contents(system, &mut text, m);
    text.flush(system);
}

// LABEL: PLACE REFUSAL h=H t=T m=M w0=S w1=S
fn ran(system: &System, label: &[u8], l: Left) {
    let mut room = [0u8; 512];
    let mut text = Text::new(&mut room);
    text.bytes(label);
    text.text(": ");
    bounded_text_words::text::entry(&mut text, l.place, l.refusal, 0, l.words);
    text.byte(b' ');
    bounded_text_words::text::worker(&mut text, 1, l.words);
    text.end_line(system);
}

pub fn run(system: &System, label: &[u8], m: [u64; WORDS], schedule: &[u64], shows: bool) {
    let l = bounded_text_faces::run(m, schedule);
    ran(system, label, l);
    if shows {
        slots(system, l.words);
    }
}
