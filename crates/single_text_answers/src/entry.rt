// One entry handed to begin, to act or to step.
use crate::build::NUMBERS;
use single_machine::{Did, Machine};
use text_output::Text;
use text_system::System;

#[derive(Clone, Copy, PartialEq, Eq)]
pub enum Call {
    Begin,
    Act,
    Step,
    // a number that names none of them is handed to step, and its line begins with the outcome
    Unnamed,
}

pub fn done(call: Call, m: Machine, first: u64, second: u64) -> Did {
    match call {
        Call::Begin => single::begin(m, first, second),
        Call::Act => single::act(m, first, second),
        Call::Step | Call::Unnamed => single::step(m, first, second),
    }
}

// s=STATE m=M wN=PLACE
fn standing(text: &mut Text, w: u64, m: Machine) {
    text.form("s=# m=# ", &single_text::numbers(m));
    single_text::text::stands(text, w, m.count, single_text::place_of(m, w));
}

// What stands after an accepted entry; whether a refused one left the machine
fn outcome(text: &mut Text, w: u64, before: Machine, d: Did) {
    if d.refusal == 0 {
        standing(text, w, d.machine);
    } else if single_text::alike::machines(before, d.machine) {
        text.text("unchanged");
    } else {
        text.text("CHANGED");
    }
}

// After a label FUNCTION FIRST SECOND: REFUSAL, and what came of it
pub fn one(system: &System, label: &[u8], call: Call, n: [u64; NUMBERS], first: u64, second: u64) {
    let mut room = [0u8; 512];
    let mut text = Text::new(&mut room);
    let m = crate::build::machine(n);
    let d = done(call, m, first, second);
    text.bytes(label);
    let form = match call {
        Call::Begin => "begin # #: # ",
        Call::Act => "act # #: # ",
        Call::Step => "step # #: # ",
        Call::Unnamed => "",
    };
    text.form(form, &[first, second, d.refusal]);
    outcome(&mut text, first / 16, m, d);
    text.end_line(system);
}

// LABEL: PLACE REFUSAL, and what stands there for worker 0
pub fn run(system: &System, label: &[u8], n: [u64; NUMBERS], schedule: &[u64]) {
    let mut room = [0u8; 512];
    let mut text = Text::new(&mut room);
    let r = single::run(crate::build::machine(n), schedule);
    text.bytes(label);
    text.form(": # # ", &[r.place, r.refusal]);
    standing(&mut text, 0, r.machine);
    text.end_line(system);
}

// Every code with the item 0, then with 1.
pub fn codes(system: &System, call: Call, n: [u64; NUMBERS]) {
    for code in 0..16 {
        one(system, b"", call, n, code, 0);
        one(system, b"", call, n, code, 1);
    }
}

// PLACE on S: REFUSAL s=STATE m=M w0=PLACE value V, of an act there
pub fn held(system: &System, n: [u64; NUMBERS]) {
    let mut room = [0u8; 512];
    let mut text = Text::new(&mut room);
    single_text::text::place(&mut text, crate::build::place_in(n[5], n[6], n[7]));
    text.form(" on #: ", &n);
    let d = single::act(crate::build::machine(n), 8, 0);
    text.form("# ", &[d.refusal]);
    standing(&mut text, 0, d.machine);
    text.form(" value #", &[d.machine.single.value]);
    text.end_line(system);
}
