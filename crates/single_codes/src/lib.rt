// A worker's place as three words, its code and the two words that it holds, and back (specs/Codes.antt has the table).
#![tactic(auto)]

ghost use Rattle.std.specs.Prelude.{◌≡◌};
ghost use Rattle.single_codes.specs.Codes.{triple, answer_code, code_of, answer_in, held_in, place_in, stands_for};

use single_places::{Answer, Place};
use single_words::State;

#[derive(Clone, Copy, PartialEq, Eq)]
pub struct Coded {
    pub code: u64,
    pub first: u64,
    pub second: u64,
}

fn triple(code: u64, first: u64, second: u64) -> Coded
    ensures { result ≡ triple code first second }
{
    Coded {
        code,
        first,
        second,
    }
}

fn answer_code(a: Answer) -> Coded
    ensures { result ≡ answer_code a }
{
    match a {
        Answer::Nothing => triple(0, 0, 0),
        Answer::Pushed => triple(1, 0, 0),
        Answer::Full(x) => triple(6, x, 0),
        Answer::Closed(x) => triple(7, x, 0),
        Answer::Displaced(x) => triple(8, x, 0),
        Answer::Popped(x) => triple(9, x, 0),
        Answer::Empty => triple(2, 0, 0),
        Answer::PopClosed => triple(3, 0, 0),
        Answer::Len(x) => triple(10, x, 0),
        Answer::Yes => triple(4, 0, 0),
        Answer::No => triple(5, 0, 0),
    }
}

pub fn code_of(p: Place) -> Coded
    ensures { result ≡ code_of p }
{
    match p {
        Place::Idle(a) => answer_code(a),
        Place::A1(x) => triple(11, x, 0),
        Place::A2(x) => triple(12, x, 0),
        Place::A3 => triple(19, 0, 0),
        Place::B1(e, x) => triple(18, e.0, x),
        Place::B2(x) => triple(13, x, 0),
        Place::B3 => triple(20, 0, 0),
        Place::B4(x) => triple(14, x, 0),
        Place::B5(x) => triple(15, x, 0),
        Place::C1(e) => triple(16, e.0, 0),
        Place::C2 => triple(21, 0, 0),
        Place::C3(x) => triple(17, x, 0),
        Place::Len1 => triple(22, 0, 0),
        Place::Empty1 => triple(23, 0, 0),
        Place::Full1 => triple(24, 0, 0),
        Place::Close1 => triple(25, 0, 0),
        Place::IsClosed1 => triple(26, 0, 0),
    }
}

fn answer_in(code: u64, x: u64) -> Answer
    ensures { result ≡ answer_in code x }
{
    match code {
        0 => Answer::Nothing,
        1 => Answer::Pushed,
        2 => Answer::Empty,
        3 => Answer::PopClosed,
        4 => Answer::Yes,
        5 => Answer::No,
        6 => Answer::Full(x),
        7 => Answer::Closed(x),
        8 => Answer::Displaced(x),
        9 => Answer::Popped(x),
        _ => Answer::Len(x),
    }
}

fn held_in(code: u64, a: u64, b: u64) -> Place
    ensures { result ≡ held_in code a b }
{
    match code {
        0 => Place::A1(a),
        1 => Place::A2(a),
        2 => Place::B2(a),
        3 => Place::B4(a),
        4 => Place::B5(a),
        5 => Place::C1(State(a)),
        6 => Place::C3(a),
        7 => Place::B1(State(a), b),
        8 => Place::A3,
        9 => Place::B3,
        10 => Place::C2,
        11 => Place::Len1,
        12 => Place::Empty1,
        13 => Place::Full1,
        14 => Place::Close1,
        _ => Place::IsClosed1,
    }
}

pub fn place_in(code: u64, a: u64, b: u64) -> Place
    ensures { result ≡ place_in code a b }
{
    if code < 11 {
        Place::Idle(answer_in(code, a))
    } else {
        held_in(code - 11, a, b)
    }
}

// Whether the words are those of a place: a code that one has, and 0 in what it does not hold.
pub fn stands(code: u64, first: u64, second: u64) -> bool
    ensures { result ≡ stands_for code first second }
{
    code_of(place_in(code, first, second)) == triple(code, first, second)
}
