// A place by its name, and what it holds.
use single_places::{Answer, Place};

// Which place it is.
#[derive(Clone, Copy, PartialEq, Eq)]
pub enum Case {
    Idle,
    A1,
    A2,
    A3,
    B1,
    B2,
    B3,
    B4,
    B5,
    C1,
    C2,
    C3,
    Len1,
    Empty1,
    Full1,
    Close1,
    IsClosed1,
}

#[derive(Clone, Copy, PartialEq, Eq)]
pub struct Coded {
    pub case: Case,
    // how many numbers it has, or ANSWERS and its answer's number in the order of the enum
    pub more: usize,
    pub a: u64,
    pub b: u64,
}

// The first answer; the others follow in their order.
pub const ANSWERS: usize = 3;

fn held(case: Case, more: usize, a: u64, b: u64) -> Coded {
    Coded { case, more, a, b }
}

fn none(case: Case) -> Coded {
    held(case, 0, 0, 0)
}

fn one(case: Case, a: u64) -> Coded {
    held(case, 1, a, 0)
}

fn idle(answer: usize, a: u64) -> Coded {
    held(Case::Idle, ANSWERS + answer % 16, a, 0)
}

fn answered(a: Answer) -> Coded {
    match a {
        Answer::Nothing => idle(0, 0),
        Answer::Pushed => idle(1, 0),
        Answer::Full(item) => idle(2, item),
        Answer::Closed(item) => idle(3, item),
        Answer::Displaced(old) => idle(4, old),
        Answer::Popped(value) => idle(5, value),
        Answer::Empty => idle(6, 0),
        Answer::PopClosed => idle(7, 0),
        Answer::Len(n) => idle(8, n),
        Answer::Yes => idle(9, 0),
        Answer::No => idle(10, 0),
    }
}

pub fn of(p: Place) -> Coded {
    match p {
        Place::Idle(a) => answered(a),
        Place::A1(item) => one(Case::A1, item),
        Place::A2(item) => one(Case::A2, item),
        Place::A3 => none(Case::A3),
        Place::B1(e, item) => held(Case::B1, 2, e.0, item),
        Place::B2(item) => one(Case::B2, item),
        Place::B3 => none(Case::B3),
        Place::B4(item) => one(Case::B4, item),
        Place::B5(old) => one(Case::B5, old),
        Place::C1(e) => one(Case::C1, e.0),
        Place::C2 => none(Case::C2),
        Place::C3(value) => one(Case::C3, value),
        Place::Len1 => none(Case::Len1),
        Place::Empty1 => none(Case::Empty1),
        Place::Full1 => none(Case::Full1),
        Place::Close1 => none(Case::Close1),
        Place::IsClosed1 => none(Case::IsClosed1),
    }
}
