// One machine handed to every function, and one line of what they said.
use crate::build::NUMBERS;
use crate::entry;
use crate::entry::Call;
use single_machine::Machine;
use text_output::Text;
use text_system::System;

// Worker 0 begins a push, acts, acts with code 9, and takes two of these steps.
const TRIED: [(&str, Call, u64, u64); 5] = [
    (" begin #", Call::Begin, 0, 5),
    (" act #", Call::Act, 8, 0),
    (" lose #", Call::Act, 9, 0),
    (" step 0 #", Call::Step, 0, 5),
    (" step 8 #", Call::Step, 8, 0),
];

// Whether a refused call left the machine; of an accepted one this says nothing.
fn unless_left(text: &mut Text, refusal: u64, before: Machine, after: Machine) {
    if refusal != 0 && !single_text::alike::machines(before, after) {
        text.text(" CHANGED");
    }
}

fn entries(text: &mut Text, m: Machine) {
    for (form, call, first, second) in TRIED {
        let d = entry::done(call, m, first, second);
        text.form(form, &[d.refusal]);
        unless_left(text, d.refusal, m, d.machine);
    }
}

fn say_ran(text: &mut Text, form: &str, m: Machine, schedule: &[u64]) {
    let r = single::run(m, schedule);
    text.form(form, &[r.refusal, r.place]);
    unless_left(text, r.refusal, m, r.machine);
}

// REFUSAL, or ok NUMBER
fn say_told(text: &mut Text, t: Result<u64, u64>) {
    match t {
        Ok(n) => text.form("ok #", &[n]),
        Err(r) => text.number(r),
    }
}

// The rest, on a buffer of one word, which 77 marks.
fn looks(text: &mut Text, m: Machine) {
    let mut buffer = [77u64];
    let t = single::contents(m, &mut buffer);
    text.text(" contents ");
    say_told(text, t);
    text.form("/# capacity ", &buffer);
    say_told(text, single::capacity(m));
}

pub fn machine(system: &System, label: &[u8], n: [u64; NUMBERS]) {
    let mut room = [0u8; 1024];
    let mut text = Text::new(&mut room);
    let m = crate::build::machine(n);
    text.bytes(label);
    text.text(if single::broken(m) {
        ": broken,"
    } else {
        ": sound,"
    });
    entries(&mut text, m);
    say_ran(&mut text, " run # at #", m, &[8, 0]);
    say_ran(&mut text, " odd # at #", m, &[8]);
    say_ran(&mut text, " none # at #", m, &[]);
    looks(&mut text, m);
    text.end_line(system);
}
