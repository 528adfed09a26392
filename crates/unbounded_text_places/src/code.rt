// A place by its name, and what it holds.
use unbounded_places::{Answer, Place};
use unbounded_words::{Pointer, number};

// Which place it is.
#[derive(Clone, Copy, PartialEq, Eq)]
pub enum Case {
    Idle,
    U1,
    U2,
    U3,
    U4,
    U5,
    U6,
    U7,
    U8,
    U9,
    U10,
    U11,
    U12,
    U13,
    U14,
    U15,
    V1,
    V2,
    V3,
    V4,
    V5,
    V6,
    V7,
    V8,
    V9,
    V10,
    V11,
    V12,
    V13,
    V14,
    V15,
    Len1,
    Len2,
    Len3,
    Empty1,
    Empty2,
    Full1,
    Close1,
    IsClosed1,
}

#[derive(Clone, Copy)]
pub struct Coded {
    pub case: Case,
    // its words in the order of the enum, of which a block is its number, and NONE for no block
    pub words: [u64; 4],
    // what it answered, or answers once it has freed its block
    pub answer: Answer,
}

pub const NONE: u64 = 64;

fn answered(case: Case, block: u64, answer: Answer) -> Coded {
    Coded {
        case,
        words: [block, 0, 0, 0],
        answer,
    }
}

fn words(case: Case, a: u64, b: u64, c: u64, d: u64) -> Coded {
    Coded {
        case,
        words: [a, b, c, d],
        answer: Answer::Nothing,
    }
}

// Of places that have first the block that is set aside.
fn from_aside(case: Case, aside: Pointer, t: u64, block: Pointer, x: u64) -> Coded {
    words(case, number(aside), t, number(block), x)
}

// Of places that have first an index word and its block.
fn from_index(case: Case, word: u64, block: Pointer, third: u64) -> Coded {
    words(case, word, number(block), third, 0)
}

pub fn of(p: Place) -> Coded {
    match p {
        Place::Idle(a) => answered(Case::Idle, 0, a),
        Place::U1(n, x) => words(Case::U1, number(n), x, 0, 0),
        Place::U2(n, t, x) => words(Case::U2, number(n), t.0, x, 0),
        Place::U3(t, b, x) => from_index(Case::U3, t.0, b, x),
        Place::U4(n, t, x) => words(Case::U4, number(n), t.0, x, 0),
        Place::U5(n, t, b, x) => from_aside(Case::U5, n, t.0, b, x),
        Place::U6(n, t, b, x) => from_aside(Case::U6, n, t.0, b, x),
        Place::U7(n, t, b, x) => from_aside(Case::U7, n, t.0, b, x),
        Place::U8(n, t, x) => words(Case::U8, number(n), t.0, x, 0),
        Place::U9(n, t, b, x) => from_aside(Case::U9, n, t.0, b, x),
        Place::U10(n, t, b, x) => from_aside(Case::U10, n, t.0, b, x),
        Place::U11(n, t, b, x) => from_aside(Case::U11, n, t.0, b, x),
        Place::U12(n, t, b, x) => from_aside(Case::U12, n, t.0, b, x),
        Place::U13(n, t, b) => from_aside(Case::U13, n, t.0, b, 0),
        Place::U14(n, a) => answered(Case::U14, number(n), a),
        Place::U15(n, b, x) => words(Case::U15, number(n), number(b), x, 0),
        Place::V1 => words(Case::V1, 0, 0, 0, 0),
        Place::V2(h) => words(Case::V2, h.0, 0, 0, 0),
        Place::V3(h, b) => from_index(Case::V3, h.0, b, 0),
        Place::V4(h, b, w) => from_index(Case::V4, h.0, b, w.0),
        Place::V5(h) => words(Case::V5, h.0, 0, 0, 0),
        Place::V6(h, b, w) => from_index(Case::V6, h.0, b, w.0),
        Place::V7(h, b, w, n) => words(Case::V7, h.0, number(b), w.0, number(n)),
        Place::V8(h, b, n, i) => words(Case::V8, h.0, number(b), number(n), i.0),
        Place::V9(h, b, i) => from_index(Case::V9, h.0, b, i.0),
        Place::V10(h, b) => from_index(Case::V10, h.0, b, 0),
        Place::V11(h, b) => from_index(Case::V11, h.0, b, 0),
        Place::V12(h, b, v) => from_index(Case::V12, h.0, b, v),
        Place::V13(b, i, v) => words(Case::V13, number(b), i, v, 0),
        Place::V14(b, i, v) => words(Case::V14, number(b), i, v, 0),
        Place::V15(b, v) => words(Case::V15, number(b), v, 0, 0),
        Place::Len1 => words(Case::Len1, 0, 0, 0, 0),
        Place::Len2(t) => words(Case::Len2, t.0, 0, 0, 0),
        Place::Len3(t, h) => words(Case::Len3, t.0, h.0, 0, 0),
        Place::Empty1 => words(Case::Empty1, 0, 0, 0, 0),
        Place::Empty2(h) => words(Case::Empty2, h.0, 0, 0, 0),
        Place::Full1 => words(Case::Full1, 0, 0, 0, 0),
        Place::Close1 => words(Case::Close1, 0, 0, 0, 0),
        Place::IsClosed1 => words(Case::IsClosed1, 0, 0, 0, 0),
    }
}
