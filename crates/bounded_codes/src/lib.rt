// A worker's place as three words, its code and the two words that it holds, and back (specs/Codes.antt has the table).
#![tactic(auto)]

ghost use Rattle.std.specs.Prelude.{◌≡◌};
ghost use Rattle.bounded_places.specs.Places.{view_of};
ghost use Rattle.bounded_codes.specs.Codes.{triple, answer_code, kind_code, code_of, answer_in, held_in, place_in, within, may_be};

use bounded_places::{Answer, Held, Kind, Place};
use bounded_words::Stamp;

#[derive(Clone, Copy)]
pub struct Coded {
    pub code: u64,
    pub first: u64,
    pub second: u64,
}

fn triple(code: u64, first: u64, second: u64) -> Coded
    ensures { result ≡ triple code first second }
{
    Coded {
        code,
        first,
        second,
    }
}

fn answer_code(a: Answer) -> Coded
    ensures { result ≡ answer_code a }
{
    match a {
        Answer::Nothing => triple(0, 0, 0),
        Answer::Pushed => triple(1, 0, 0),
        Answer::Full(x) => triple(6, x, 0),
        Answer::Closed(x) => triple(7, x, 0),
        Answer::Displaced(x) => triple(8, x, 0),
        Answer::Popped(x) => triple(9, x, 0),
        Answer::Empty => triple(2, 0, 0),
        Answer::PopClosed => triple(3, 0, 0),
        Answer::Len(x) => triple(10, x, 0),
        Answer::Yes => triple(4, 0, 0),
        Answer::No => triple(5, 0, 0),
    }
}

fn kind_code(k: Kind, push: u64, force: u64) -> u64
    ensures { result ≡ kind_code k push force }
{
    match k {
        Kind::Push => push,
        Kind::Force => force,
    }
}

pub fn code_of(p: Place) -> Coded
    ensures { result ≡ code_of p }
{
    match p {
        Place::Idle(a) => answer_code(a),
        Place::P1(k, a) => triple(kind_code(k, 11, 12), a, 0),
        Place::P2(k, a, b) => triple(kind_code(k, 22, 23), a.0, b),
        Place::P3(k, a, b) => triple(kind_code(k, 24, 25), a.0, b),
        Place::P4(a, b) => triple(26, a.0, b),
        Place::P5(a) => triple(15, a.0, 0),
        Place::P6(a, b) => triple(27, a.0, b),
        Place::F6(a, b) => triple(28, a.0, b),
        Place::F7(a, b) => triple(29, a.0, b),
        Place::F8(a, b) => triple(30, a.0, b),
        Place::F9(a, b) => triple(31, a.0, b),
        Place::O1 => triple(33, 0, 0),
        Place::O2(a) => triple(16, a.0, 0),
        Place::O3(a) => triple(17, a.0, 0),
        Place::O4(a) => triple(18, a.0, 0),
        Place::O5(a, b) => triple(32, a.0, b),
        Place::O6(a) => triple(19, a.0, 0),
        Place::Len1 => triple(34, 0, 0),
        Place::Len2(a) => triple(20, a.0, 0),
        Place::Len3(a, b) => triple(21, a.0, b.0),
        Place::Empty1 => triple(35, 0, 0),
        Place::Empty2(a) => triple(13, a.0, 0),
        Place::Full1 => triple(36, 0, 0),
        Place::Full2(a) => triple(14, a.0, 0),
        Place::Close1 => triple(37, 0, 0),
        Place::IsClosed1 => triple(38, 0, 0),
    }
}

fn answer_in(code: u64, x: u64) -> Answer
    ensures { result ≡ answer_in code x }
{
    match code {
        0 => Answer::Nothing,
        1 => Answer::Pushed,
        2 => Answer::Empty,
        3 => Answer::PopClosed,
        4 => Answer::Yes,
        5 => Answer::No,
        6 => Answer::Full(x),
        7 => Answer::Closed(x),
        8 => Answer::Displaced(x),
        9 => Answer::Popped(x),
        _ => Answer::Len(x),
    }
}

fn held_in(code: u64, a: u64, b: u64) -> Place
    ensures { result ≡ held_in code a b }
{
    match code {
        0 => Place::P1(Kind::Push, a),
        1 => Place::P1(Kind::Force, a),
        2 => Place::Empty2(Stamp(a)),
        3 => Place::Full2(Stamp(a)),
        4 => Place::P5(Stamp(a)),
        5 => Place::O2(Stamp(a)),
        6 => Place::O3(Stamp(a)),
        7 => Place::O4(Stamp(a)),
        8 => Place::O6(Stamp(a)),
        9 => Place::Len2(Stamp(a)),
        10 => Place::Len3(Stamp(a), Stamp(b)),
        11 => Place::P2(Kind::Push, Stamp(a), b),
        12 => Place::P2(Kind::Force, Stamp(a), b),
        13 => Place::P3(Kind::Push, Stamp(a), b),
        14 => Place::P3(Kind::Force, Stamp(a), b),
        15 => Place::P4(Stamp(a), b),
        16 => Place::P6(Stamp(a), b),
        17 => Place::F6(Stamp(a), b),
        18 => Place::F7(Stamp(a), b),
        19 => Place::F8(Stamp(a), b),
        20 => Place::F9(Stamp(a), b),
        21 => Place::O5(Stamp(a), b),
        22 => Place::O1,
        23 => Place::Len1,
        24 => Place::Empty1,
        25 => Place::Full1,
        26 => Place::Close1,
        _ => Place::IsClosed1,
    }
}

pub fn place_in(code: u64, a: u64, b: u64) -> Place
    ensures { result ≡ place_in code a b }
{
    if code < 11 {
        Place::Idle(answer_in(code, a))
    } else {
        held_in(code - 11, a, b)
    }
}

// Which words a place holds is a matter of ranges, so that a row of records is judged without a jump for each.
pub fn within(code: u64, from: u64, to: u64) -> bool
    ensures { result ≡ within code from to }
{
    from <= code && code < to
}

pub fn may_be(word: u64, held: bool) -> bool
    ensures { result ≡ may_be word held }
{
    held || word == 0
}

// What is asked of the place that the words stand for, by the code alone, so that an entry goes by its place once: when it acts.
pub fn busy_in(code: u64, first: u64, second: u64) -> bool
    ensures { result ≡ (view_of (place_in code first second)).busy }
{
    11 <= code
}

pub fn weak_in(code: u64, first: u64, second: u64) -> bool
    ensures { result ≡ (view_of (place_in code first second)).weak }
{
    if code == 17 {
        return true;
    }
    if code == 24 {
        return true;
    }
    if code == 25 {
        return true;
    }
    code == 28
}

// The loaded words of the place that the words stand for.
pub fn words_held(code: u64, first: u64, second: u64) -> Held
    ensures { result ≡ (view_of (place_in code first second)).held }
{
    if code < 15 {
        return Held::Nothing;
    }
    if code == 20 {
        return Held::Tail(Stamp(first));
    }
    if code == 21 {
        return Held::Both(Stamp(first), Stamp(second));
    }
    if code < 33 {
        return Held::End(Stamp(first));
    }
    Held::Nothing
}
