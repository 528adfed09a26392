// One act, by the place at which it is taken.
use crate::Entered;
use crate::notes::Notes;
use single_text::code::{Case, Coded};
use text_output::Text;
use text_sentences::{Key, Row};

// The word that the exchange expects.
pub fn expected(before: Coded) -> u64 {
    if before.case == Case::A1 { 0 } else { before.a }
}

// In the list of forms, behind the states.
const ANSWERED: u64 = 8;

// The numbers of the table's letters: a, i the first number that the worker has then and had; e the word that its exchange expects; o, s the state word as it was and is;
// p, t the claims of pushes and of pops; w the worker; x its answer's form, y, z those of o and s.
fn numbers_of(e: Entered, n: Notes) -> [u64; 26] {
    [
        e.after.a,
        0,
        0,
        0,
        expected(e.before),
        0,
        0,
        0,
        e.before.a,
        0,
        0,
        0,
        0,
        0,
        e.was,
        n.puts,
        0,
        0,
        e.state,
        n.takes,
        0,
        0,
        e.first / 16,
        ANSWERED.wrapping_add(e.after.more as u64),
        e.was,
        e.state,
    ]
}

// The places in the order of their names; - for none.
const PLACES: &[&str] = &[
    "-",
    "A1",
    "A2",
    "A3",
    "B1",
    "B2",
    "B3",
    "B4",
    "B5",
    "C1",
    "C2",
    "C3",
    "len1",
    "empty1",
    "full1",
    "close1",
    "isclosed1",
];

// The answers in the order in which single_text::code has them.
const ANSWERS: &[&str] = &[
    "nothing",
    "pushed",
    "full",
    "closed",
    "displaced",
    "popped",
    "empty",
    "closed",
    "len",
    "yes",
    "no",
];

fn place(case: Case) -> &'static str {
    PLACES.get(case as usize).copied().unwrap_or("")
}

// What an act leads to.
fn led_to(after: Coded) -> &'static str {
    if after.case != Case::Idle {
        return place(after.case);
    }
    let n = after.more.wrapping_sub(single_text::code::ANSWERS);
    ANSWERS.get(n).copied().unwrap_or("")
}

// The name of a place.
pub fn name(text: &mut Text, case: Case) {
    text.text(place(case));
}

const SENTENCES: &[Row] = &[
    (
        &["A1>A2", "B1>B2"],
        "state #o -> #s won: claim #p is w#w's; the slot in its hand",
    ),
    (
        &["B1>B4"],
        "state #o -> #s won: claim #p is w#w's, to displace claim #t; the slot in its hand",
    ),
    (
        &["C1>C2"],
        "state #o -> #s won: claim #t is w#w's; the slot in its hand",
    ),
    (
        &["B1>B1", "C1>C1"],
        "state is #o, $y, not #e: lost; goes on with #a",
    ),
    (&["A1", "C1"], "state is #o, $y, not #e: lost; $x"),
    (&["B1"], "state is #o, $y: $x"),
    (&["A2", "B2"], "writes #i into the slot"),
    (&["B4"], "takes #a out of the slot, writes #i"),
    (&["C2"], "reads #a out of the slot"),
    (
        &["A3", "B3", "B5"],
        "state #o -> #s, the slot ready to be popped: $x",
    ),
    (&["C3"], "state #o -> #s, the slot free: $x"),
    (&["len1", "empty1", "full1"], "state is #s, $z: $x"),
    (&["close1>yes"], "state #o -> #s, closed: $x"),
    (&["close1"], "state is #s, closed already: $x"),
    (&["isclosed1>yes"], "state is #s, closed: $x"),
    (&["isclosed1"], "state is #s, not closed: $x"),
];

// The states, then, behind three that stand for no answer, the answers.
const FORMS: &[&str] = &[
    "free",
    "locked",
    "pushed",
    "locked and pushed",
    "closed",
    "locked and closed",
    "pushed and closed",
    "locked, pushed and closed",
    "",
    "",
    "",
    "none",
    "pushed",
    "full, # not pushed",
    "closed, # not pushed",
    "displaced #",
    "popped #",
    "empty",
    "closed",
    "len #",
    "yes",
    "no",
];

// What an act did, after which the notes are still to be written.
pub fn act(text: &mut Text, e: Entered, n: Notes) {
    let key = Key {
        at: place(e.before.case),
        to: led_to(e.after),
    };
    text_sentences::told(text, SENTENCES, key, &numbers_of(e, n), FORMS);
}
