// What came of a making: the blank machine, or one with these constants.
use bounded_text_words::{CAPACITY, COUNT, EDITION, HEAD, LAP, MARK, METER, TAIL, WORDS};
use text_output::Text;
use text_system::System;

fn constants(text: &mut Text, m: [u64; WORDS]) {
    let numbers = [
        m[CAPACITY],
        m[MARK],
        m[LAP],
        m[COUNT],
        m[EDITION],
        m[HEAD],
        m[TAIL],
        m[METER],
    ];
    let form = " capacity=# mark=# lap=# workers=# edition=# h=# t=# m=#";
    text.form(form, &numbers);
}

fn stands(text: &mut Text, refusal: u64, m: [u64; WORDS]) {
    if refusal == 0 {
        constants(text, m);
    } else if m == [0; WORDS] {
        text.text(" blank");
    } else {
        text.text(" NOT BLANK");
    }
}

pub fn make(system: &System, capacity: u64, workers: u64, edition: u64) {
    let mut room = [0u8; 512];
    let mut text = Text::new(&mut room);
    let l = bounded_text_faces::make(capacity, workers, edition);
    text.form("make # # #: #", &[capacity, workers, edition, l.refusal]);
    stands(&mut text, l.refusal, l.words);
    text.end_line(system);
}

// Of the first record, the last and one past it.
pub fn workers(system: &System, m: [u64; WORDS]) {
    let mut room = [0u8; 512];
    let mut text = Text::new(&mut room);
    bounded_text_words::text::worker(&mut text, 0, m);
    text.byte(b' ');
    bounded_text_words::text::worker(&mut text, 15, m);
    text.byte(b' ');
    bounded_text_words::text::worker(&mut text, 16, m);
    text.end_line(system);
    crate::entry::slots(system, m);
}
