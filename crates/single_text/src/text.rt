// Places and what a machine holds, as text, as `text_output` has it.
use crate::code::Coded;
use single_machine::Machine;
use single_places::Place;
use text_output::Text;

// The places in the order of their names.
const PLACES: &[&str] = &[
    "idle:",
    "A1",
    "A2",
    "A3",
    "B1",
    "B2",
    "B3",
    "B4",
    "B5",
    "C1",
    "C2",
    "C3",
    "len1",
    "empty1",
    "full1",
    "close1",
    "isclosed1",
];

// What follows the name: numbers, or the answer.
const HELD: &[&str] = &[
    "",
    "(#)",
    "(#,#)",
    "none",
    "pushed",
    "full(#)",
    "closed(#)",
    "displaced(#)",
    "popped(#)",
    "empty",
    "closed",
    "len(#)",
    "yes",
    "no",
];

pub fn place(text: &mut Text, p: Place) {
    let Coded { case, more, a, b } = crate::code::of(p);
    text.nth(PLACES, case as usize, &[]);
    text.nth(HELD, more, &[a, b]);
}

// wN=PLACE; "-" where there is no such worker among so many
pub fn stands(text: &mut Text, w: u64, count: u64, s: Place) {
    text.form("w#=", &[w]);
    if w < count {
        place(text, s);
    } else {
        text.byte(b'-');
    }
}

// PLACE R s=STATE m=M
pub fn report(text: &mut Text, place: u64, refusal: u64, numbers: [u64; 4]) {
    text.form("# # ", &[place, refusal]);
    text.form("s=# m=#", &numbers);
}

// PLACE R s=STATE m=M wN=PLACE, of the numbers of a machine and the place of its worker
pub fn entry(text: &mut Text, place: u64, refusal: u64, w: u64, numbers: [u64; 4], s: Place) {
    report(text, place, refusal, numbers);
    text.byte(b' ');
    stands(text, w, numbers[3], s);
}

// value V
pub fn value(text: &mut Text, m: Machine) {
    text.form("value #\n", &[m.single.value]);
}

// contents, or: contents x, or: contents refused N; as the machine answers to a buffer of one item
pub fn contents(text: &mut Text, item: u64, t: Result<u64, u64>) {
    match t {
        Ok(0) => text.text("contents\n"),
        Ok(_) => text.form("contents #\n", &[item]),
        Err(refusal) => text.form("contents refused #\n", &[refusal]),
    }
}
