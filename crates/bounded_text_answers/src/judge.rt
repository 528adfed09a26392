// One machine handed to every function, and one line of what they said.
use bounded_text_faces::{Call, Left};
use bounded_text_words::WORDS;
use text_output::Text;
use text_system::System;

// Worker 0 begins a push, acts, acts with a weak exchange that fails, and takes two of these steps.
const TRIED: [(&str, Call, u64, u64); 5] = [
    (" begin #", Call::Begin, 0, 5),
    (" act #", Call::Act, 8, 0),
    (" lose #", Call::Act, 9, 0),
    (" step 0 #", Call::Step, 0, 5),
    (" step 8 #", Call::Step, 8, 0),
];

// Whether a refused call left the machine; of an accepted one this says nothing.
fn unless_left(text: &mut Text, m: [u64; WORDS], l: Left) {
    if l.refusal != 0 && m != l.words {
        text.text(" CHANGED");
    }
}

fn entries(text: &mut Text, m: [u64; WORDS]) {
    for (form, call, first, second) in TRIED {
        let l = bounded_text_faces::enter(call, m, first, second);
        text.form(form, &[l.refusal]);
        unless_left(text, m, l);
    }
}

fn say_ran(text: &mut Text, form: &str, m: [u64; WORDS], schedule: &[u64]) {
    let l = bounded_text_faces::run(m, schedule);
    text.form(form, &[l.refusal, l.place]);
    unless_left(text, m, l);
}

// REFUSAL, or ok NUMBER
pub fn say_told(text: &mut Text, t: Result<u64, u64>) {
    match t {
        Ok(n) => text.form("ok #", &[n]),
        Err(r) => text.number(r),
    }
}

// The rest, on a buffer of one word, which 77 marks.
fn looks(text: &mut Text, m: [u64; WORDS]) {
    let mut buffer = [77u64];
    let t = bounded_text_faces::contents(m, &mut buffer);
    text.text(" contents ");
    say_told(text, t);
    text.form("/# capacity ", &buffer);
    say_told(text, bounded_text_faces::capacity(m));
}

fn line(system: &System, text: &mut Text, m: [u64; WORDS]) {
    text.text(if bounded_text_faces::broken(m) {
        ": broken,"
    } else {
        ": sound,"
    });
    entries(text, m);
    say_ran(text, " run # at #", m, &[8, 0]);
    say_ran(text, " odd # at #", m, &[8]);
    say_ran(text, " none # at #", m, &[]);
    looks(text, m);
    text.end_line(system);
}

pub fn machine(system: &System, label: &[u8], m: [u64; WORDS]) {
    let mut room = [0u8; 1024];
    let mut text = Text::new(&mut room);
    text.bytes(label);
    line(system, &mut text, m);
}

// By the text of the place at which worker 0 stands.
pub fn place(system: &System, m: [u64; WORDS]) {
    let mut room = [0u8; 1024];
    let mut text = Text::new(&mut room);
    bounded_text_words::text::place(&mut text, 0, m);
    line(system, &mut text, m);
}
