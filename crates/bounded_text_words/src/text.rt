// What a machine holds, as text, as `text_output` has it.
use crate::WORDS;
use text_output::Text;
use text_system::System;

// Where a worker stands.
pub fn place(text: &mut Text, w: u64, m: [u64; WORDS]) {
    bounded_text_codes::place(
        text,
        crate::record(m, w, 0),
        crate::record(m, w, 1),
        crate::record(m, w, 2),
    );
}

// wN=PLACE; "-" where there is no such worker
pub fn worker(text: &mut Text, w: u64, m: [u64; WORDS]) {
    text.form("w#=", &[w]);
    if w < m[crate::COUNT] {
        place(text, w, m);
    } else {
        text.byte(b'-');
    }
}

// h=H t=T m=M wN=PLACE
pub fn standing(text: &mut Text, w: u64, m: [u64; WORDS]) {
    text.form("h=# t=# m=# ", &m);
    worker(text, w, m);
}

// PLACE R h=H t=T m=M wN=PLACE
pub fn entry(text: &mut Text, place: u64, refusal: u64, w: u64, m: [u64; WORDS]) {
    text.form("# # ", &[place, refusal]);
    standing(text, w, m);
}

// slots (stamp,value) ...
pub fn slots(system: &System, text: &mut Text, m: [u64; WORDS]) {
    let slots = &m[crate::SLOTS..crate::RECORDS];
    bounded_text_codes::slots(system, text, slots, m[crate::CAPACITY]);
}

// NAME x y ..., or: NAME refused N
pub fn told(system: &System, text: &mut Text, name: &str, list: &[u64], t: Result<u64, u64>) {
    match t {
        Ok(n) => bounded_text_codes::told(system, text, name, list, 0, n),
        Err(refusal) => bounded_text_codes::told(system, text, name, list, refusal, 0),
    }
}
