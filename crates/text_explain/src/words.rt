// Words that lines of all queues share: what an entry begins, why it is refused.
use crate::columns;
use crate::columns::Tells;
use text_output::Text;
use text_system::System;

const BEGINS: &[&str] = &[
    "begins push #",
    "begins force_push #",
    "begins pop",
    "begins len",
    "begins is_empty",
    "begins is_full",
    "begins close",
    "begins is_closed",
];

// The call that an entry begins, by its two numbers.
pub fn begin(line: &mut Text, first: u64, second: u64) {
    line.nth(BEGINS, (first % 16) as usize, &[second]);
}

const WHY: &[(u64, &str)] = &[
    (3, "there is no worker #a"),
    (4, "worker #a is busy"),
    (5, "worker #a is idle"),
    (6, "there is no machine; nothing is run"),
    (7, "the meter is at its end"),
    (8, "no weak exchange comes next of worker #a"),
    (9, "an entry that cannot be read; nothing is run"),
    (11, "an odd number of numbers; nothing is run"),
    (23, "no block is free"),
];

// Why it is refused, of an entry of worker w.
pub fn why(line: &mut Text, refusal: u64, w: u64) {
    text_sentences::numbered(line, WHY, refusal, &[w]);
}

// The line of an entry of worker w that was refused, or of a schedule of which nothing is run: NUMBER  -   refused R: and why
pub fn refused(system: &System, text: &mut Text, colours: bool, place: u64, refusal: u64, w: u64) {
    let mut room = [0u8; columns::WIDE];
    let mut line = Text::new(&mut room);
    columns::number(&mut line, place);
    line.form("  -   refused #: ", &[refusal]);
    why(&mut line, refusal, w);
    columns::put(system, text, &line, colours, Tells::Refused);
}

// The line of a making, by a table of its refusals and the numbers that it was asked with; 0 is none.
pub fn made(
    system: &System,
    text: &mut Text,
    colours: bool,
    table: &[(u64, &str)],
    refusal: u64,
    numbers: &[u64],
) {
    let mut room = [0u8; columns::WIDE];
    let mut line = Text::new(&mut room);
    text_sentences::numbered(&mut line, table, refusal, numbers);
    let tells = if refusal == 0 {
        Tells::Plain
    } else {
        Tells::Refused
    };
    columns::put(system, text, &line, colours, tells);
}

// Of an item that is followed, where no line was of its life.
pub fn unmet_if(text: &mut Text, it: bool, item: u64) {
    if it {
        text.form("followed: no push of #\n", &[item]);
    }
}

// Of the workers at the end of a run, where none had a line of its own.
pub fn nobody_if(text: &mut Text, it: bool) {
    if it {
        text.text("busy: nobody\n");
    }
}
