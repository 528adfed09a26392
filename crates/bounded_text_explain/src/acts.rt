// One act, by the place at which it is taken.
use text_output::Text;
use text_sentences::{Key, Row};

// An entry that was run: its place, its two words; the words of the ring and of its worker's record, before it and after it (crate bounded_rows); whether head, tail and
// stamps have sixteen bits.
#[derive(Clone, Copy)]
pub struct Entered {
    pub place: u64,
    pub first: u64,
    pub second: u64,
    pub narrow: bool,
    pub ring_before: [u64; 8],
    pub ring: [u64; 8],
    pub before: [u64; 5],
    pub after: [u64; 5],
}

// The claims at each end before the entry.
#[derive(Clone, Copy)]
pub struct Claims {
    pub tail: u64,
    pub head: u64,
}

fn slot_of(ring: [u64; 8], word: u64) -> u64 {
    word.checked_rem(ring[0]).unwrap_or(0)
}

pub fn is_marked(ring: [u64; 8], word: u64) -> bool {
    word.checked_div(ring[0]).unwrap_or(0) % 2 == 1
}

fn in_width(narrow: bool, word: u64) -> u64 {
    if narrow { word % 65536 } else { word }
}

// The word after this one.
fn next(narrow: bool, ring: [u64; 8], word: u64) -> u64 {
    let i = slot_of(ring, word);
    if i.wrapping_add(1) < ring[2] {
        return word.wrapping_add(1);
    }
    in_width(narrow, word.wrapping_sub(i).wrapping_add(ring[1]))
}

// The lap that a word is of.
fn lap_of(ring: [u64; 8], word: u64) -> u64 {
    word.checked_div(ring[1]).unwrap_or(0)
}

// The numbers of the table's letters: a, b the words that the worker has then; c, d the claim at tail, at head; e the word that it had, f the one after that, g the one a
// lap before, i its item; h head, j the word after g; k, l, p, s the slots of h, a, t and e; m, n, q the laps of a, h and t; o tail as it was, t tail; w the worker.
fn numbers_of(e: Entered, c: Claims) -> [u64; 23] {
    let ring = e.ring;
    let before = e.before;
    let after = e.after;
    let g = in_width(e.narrow, before[1].wrapping_sub(ring[1]));
    [
        after[1],
        after[2],
        c.tail,
        c.head,
        before[1],
        next(e.narrow, ring, before[1]),
        g,
        ring[4],
        before[2],
        next(e.narrow, ring, g),
        slot_of(ring, ring[4]),
        slot_of(ring, after[1]),
        lap_of(ring, after[1]),
        lap_of(ring, ring[4]),
        e.ring_before[5],
        slot_of(ring, ring[5]),
        lap_of(ring, ring[5]),
        0,
        slot_of(ring, before[1]),
        ring[5],
        0,
        0,
        e.first / 16,
    ]
}

// F7 that stores over a mark.
pub fn is_close_lost(e: Entered) -> bool {
    e.before[0] == F7 && is_marked(e.ring, e.ring_before[5]) && !is_marked(e.ring, e.ring[5])
}

// len1 or full1 that loads a marked tail.
fn is_closed_read(e: Entered) -> bool {
    matches!(e.before[0], LEN1 | FULL1) && is_marked(e.ring, e.ring[5])
}

// What an act leads to: a place, an answer, an exchange lost by the schedule, or a close that is lost.
fn led_to(e: Entered) -> &'static str {
    if e.before[4] != e.after[4] {
        return "failed";
    }
    if is_close_lost(e) {
        return "lost";
    }
    if is_closed_read(e) {
        return "closed";
    }
    name(e.after[0])
}

// The codes of some places (crate bounded_codes); those below the first are of answers.
const FIRST_PLACE: u64 = 11;

const F7: u64 = 29;

const LEN1: u64 = 34;

const FULL1: u64 = 36;

// The name of an answer or a place by its code, as replay has it.
const NAMES: &[&str] = &[
    "nothing",
    "pushed",
    "empty",
    "closed",
    "yes",
    "no",
    "full",
    "closed",
    "displaced",
    "popped",
    "len",
    "P1",
    "P1",
    "empty2",
    "full2",
    "P5",
    "O2",
    "O3",
    "O4",
    "O6",
    "len2",
    "len3",
    "P2",
    "P2",
    "P3",
    "P3",
    "P4",
    "P6",
    "F6",
    "F7",
    "F8",
    "F9",
    "O5",
    "O1",
    "len1",
    "empty1",
    "full1",
    "close1",
    "isclosed1",
];

fn name(code: u64) -> &'static str {
    NAMES.get(code as usize).copied().unwrap_or("")
}

// The name of a busy place.
pub fn place(text: &mut Text, code: u64) {
    text.text(if code < FIRST_PLACE { "-" } else { name(code) });
}

const SENTENCES: &[Row] = &[
    (
        &["P1>closed"],
        "reads tail #t: lap #q, slot #p, closed; #a not pushed",
    ),
    (&["P1"], "reads tail #a: lap #m, slot #l"),
    (&["P2>P3"], "slot #s is free for tail #e"),
    (&["P2>P6"], "slot #s has the last lap's item: full?"),
    (&["P2>F6"], "slot #s has the last lap's item: displaces it?"),
    (&["P2"], "slot #s is not at tail #e: tries again"),
    (
        &["P3>P4"],
        "tail #e -> #t won: claim #c is w#w's; slot #s in its hand",
    ),
    (
        &["P3>closed"],
        "tail is #t, marked: lost; closed, #a not pushed",
    ),
    (
        &["P3>failed"],
        "tail #e -> #f failed by the schedule; goes on with #e",
    ),
    (
        &["P3"],
        "tail is #a, not #e: lost; goes on with lap #m, slot #l",
    ),
    (&["P4"], "writes #i into slot #s"),
    (&["P5"], "slot #s ready to be popped: pushed"),
    (
        &["P6>full"],
        "head is #h, a lap behind tail #e: full, #a not pushed",
    ),
    (&["P6"], "head is #h, not a lap behind tail #e: tries again"),
    (
        &["F6>F7"],
        "head #g -> #h won: claim #d is w#w's to displace; slot #s in its hand",
    ),
    (
        &["F6>failed"],
        "head #g -> #j failed by the schedule; tries again",
    ),
    (&["F6"], "head is #h, not #g: lost; tries again"),
    (
        &["F7>lost"],
        "tail #o -> #t: claim #c is w#w's; the close is lost",
    ),
    (&["F7"], "tail #o -> #t: claim #c is w#w's"),
    (&["F8"], "takes #b out of slot #s, writes #i"),
    (&["F9"], "slot #s ready to be popped: displaced #a"),
    (&["O1"], "reads head #h: lap #n, slot #k"),
    (&["O2>O3"], "slot #s has an item for head #e"),
    (&["O2>O6"], "slot #s has none for head #e: empty?"),
    (&["O2"], "slot #s is not at head #e: tries again"),
    (
        &["O3>O4"],
        "head #e -> #h won: claim #d is w#w's; slot #s in its hand",
    ),
    (
        &["O3>failed"],
        "head #e -> #f failed by the schedule; goes on with #e",
    ),
    (
        &["O3"],
        "head is #a, not #e: lost; goes on with lap #m, slot #l",
    ),
    (&["O4"], "reads #b out of slot #s"),
    (&["O5"], "slot #s free for the next lap: popped #a"),
    (&["O6>empty"], "tail is #t, as head: empty"),
    (&["O6>closed"], "tail is #t, marked, else as head: closed"),
    (&["O6"], "tail is #t, not #e: tries again"),
    (
        &["len1>closed", "full1>closed"],
        "reads tail #t: lap #q, slot #p, closed",
    ),
    (&["len1", "full1"], "reads tail #t: lap #q, slot #p"),
    (&["len2", "empty1"], "reads head #h: lap #n, slot #k"),
    (&["len3>len"], "tail is still #t: len #a"),
    (&["len3"], "tail is #t, not #e: tries again"),
    (&["empty2>yes"], "tail is #t, head was #e: yes"),
    (&["empty2"], "tail is #t, head was #e: no"),
    (&["full2>yes"], "head is #h, tail was #e: yes"),
    (&["full2"], "head is #h, tail was #e: no"),
    (&["close1>yes"], "tail #o -> #t, marked: yes"),
    (&["close1"], "tail is #t, marked already: no"),
    (&["isclosed1>yes"], "tail is #t, marked: yes"),
    (&["isclosed1"], "tail is #t, not marked: no"),
];

// What an act did.
pub fn act(text: &mut Text, e: Entered, c: Claims) {
    let key = Key {
        at: name(e.before[0]),
        to: led_to(e),
    };
    text_sentences::told(text, SENTENCES, key, &numbers_of(e, c), &[]);
}
