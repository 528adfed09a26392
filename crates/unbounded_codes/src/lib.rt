// A worker's place as five words, its code and the four words that it holds, and back (specs/Codes.antt has the table).
#![tactic(auto)]

ghost use Rattle.std.specs.Prelude.{◌≡◌};
ghost use Rattle.unbounded_codes.specs.Codes.{five, first_block, second_block, aside, two_blocks, next_last, next_third, with_answer, answer_code, code_of, pointer_in, answer_in, push_in, pop_in, look_in, place_in, stands_for};

use unbounded_places::{Answer, Place};
use unbounded_words::{Index, Pointer, number};

#[derive(Clone, Copy, PartialEq, Eq)]
pub struct Coded {
    pub code: u64,
    pub first: u64,
    pub second: u64,
    pub third: u64,
    pub fourth: u64,
}

// A block among the words is its number, that of no block for none.
fn five(code: u64, a: u64, b: u64, c: u64, d: u64) -> Coded
    ensures { result ≡ five code a b c d }
{
    Coded {
        code,
        first: a,
        second: b,
        third: c,
        fourth: d,
    }
}

fn first_block(code: u64, a: Pointer, b: u64, c: u64, d: u64) -> Coded
    ensures { result ≡ first_block code a b c d }
{
    Coded {
        code,
        first: number(a),
        second: b,
        third: c,
        fourth: d,
    }
}

fn second_block(code: u64, a: u64, b: Pointer, c: u64, d: u64) -> Coded
    ensures { result ≡ second_block code a b c d }
{
    Coded {
        code,
        first: a,
        second: number(b),
        third: c,
        fourth: d,
    }
}

fn aside(code: u64, a: Pointer, b: u64, c: Pointer, d: u64) -> Coded
    ensures { result ≡ aside code a b c d }
{
    Coded {
        code,
        first: number(a),
        second: b,
        third: number(c),
        fourth: d,
    }
}

fn two_blocks(code: u64, a: Pointer, b: Pointer, c: u64, d: u64) -> Coded
    ensures { result ≡ two_blocks code a b c d }
{
    Coded {
        code,
        first: number(a),
        second: number(b),
        third: c,
        fourth: d,
    }
}

fn next_last(code: u64, a: u64, b: Pointer, c: u64, d: Pointer) -> Coded
    ensures { result ≡ next_last code a b c d }
{
    Coded {
        code,
        first: a,
        second: number(b),
        third: c,
        fourth: number(d),
    }
}

fn next_third(code: u64, a: u64, b: Pointer, c: Pointer, d: u64) -> Coded
    ensures { result ≡ next_third code a b c d }
{
    Coded {
        code,
        first: a,
        second: number(b),
        third: number(c),
        fourth: d,
    }
}

// The answer that a call gives once its block is free.
fn with_answer(code: u64, p: Pointer, a: Coded) -> Coded
    ensures { result ≡ with_answer code p a }
{
    first_block(code, p, a.code, a.first, 0)
}

fn answer_code(a: Answer) -> Coded
    ensures { result ≡ answer_code a }
{
    match a {
        Answer::Nothing => five(0, 0, 0, 0, 0),
        Answer::Pushed => five(1, 0, 0, 0, 0),
        Answer::Closed(x) => five(7, x, 0, 0, 0),
        Answer::Popped(x) => five(9, x, 0, 0, 0),
        Answer::Empty => five(2, 0, 0, 0, 0),
        Answer::PopClosed => five(3, 0, 0, 0, 0),
        Answer::Len(x) => five(10, x, 0, 0, 0),
        Answer::Yes => five(4, 0, 0, 0, 0),
        Answer::No => five(5, 0, 0, 0, 0),
    }
}

pub fn code_of(p: Place) -> Coded
    ensures { result ≡ code_of p }
{
    match p {
        Place::Idle(a) => answer_code(a),
        Place::U1(a, b) => first_block(11, a, b, 0, 0),
        Place::U2(a, b, c) => first_block(12, a, b.0, c, 0),
        Place::U3(a, b, c) => second_block(13, a.0, b, c, 0),
        Place::U4(a, b, c) => first_block(14, a, b.0, c, 0),
        Place::U5(a, b, c, d) => aside(15, a, b.0, c, d),
        Place::U6(a, b, c, d) => aside(16, a, b.0, c, d),
        Place::U7(a, b, c, d) => aside(17, a, b.0, c, d),
        Place::U8(a, b, c) => first_block(18, a, b.0, c, 0),
        Place::U9(a, b, c, d) => aside(19, a, b.0, c, d),
        Place::U10(a, b, c, d) => aside(20, a, b.0, c, d),
        Place::U11(a, b, c, d) => aside(21, a, b.0, c, d),
        Place::U12(a, b, c, d) => aside(22, a, b.0, c, d),
        Place::U13(a, b, c) => aside(23, a, b.0, c, 0),
        Place::U14(p, a) => with_answer(24, p, answer_code(a)),
        Place::U15(a, b, c) => two_blocks(25, a, b, c, 0),
        Place::V1 => five(26, 0, 0, 0, 0),
        Place::V2(a) => five(27, a.0, 0, 0, 0),
        Place::V3(a, b) => second_block(28, a.0, b, 0, 0),
        Place::V4(a, b, c) => second_block(29, a.0, b, c.0, 0),
        Place::V5(a) => five(30, a.0, 0, 0, 0),
        Place::V6(a, b, c) => second_block(31, a.0, b, c.0, 0),
        Place::V7(a, b, c, d) => next_last(32, a.0, b, c.0, d),
        Place::V8(a, b, c, d) => next_third(33, a.0, b, c, d.0),
        Place::V9(a, b, c) => second_block(34, a.0, b, c.0, 0),
        Place::V10(a, b) => second_block(35, a.0, b, 0, 0),
        Place::V11(a, b) => second_block(36, a.0, b, 0, 0),
        Place::V12(a, b, c) => second_block(37, a.0, b, c, 0),
        Place::V13(a, b, c) => first_block(38, a, b, c, 0),
        Place::V14(a, b, c) => first_block(39, a, b, c, 0),
        Place::V15(a, b) => first_block(40, a, b, 0, 0),
        Place::Len1 => five(41, 0, 0, 0, 0),
        Place::Len2(a) => five(42, a.0, 0, 0, 0),
        Place::Len3(a, b) => five(43, a.0, b.0, 0, 0),
        Place::Empty1 => five(44, 0, 0, 0, 0),
        Place::Empty2(a) => five(45, a.0, 0, 0, 0),
        Place::Full1 => five(46, 0, 0, 0, 0),
        Place::Close1 => five(47, 0, 0, 0, 0),
        Place::IsClosed1 => five(48, 0, 0, 0, 0),
    }
}

pub fn pointer_in(word: u64) -> Pointer
    ensures { result ≡ pointer_in word }
{
    if word == (unbounded_words::BLOCKS as u64) {
        Pointer::None
    } else {
        Pointer::To(word)
    }
}

fn answer_in(code: u64, x: u64) -> Answer
    ensures { result ≡ answer_in code x }
{
    match code {
        0 => Answer::Nothing,
        1 => Answer::Pushed,
        2 => Answer::Empty,
        3 => Answer::PopClosed,
        4 => Answer::Yes,
        5 => Answer::No,
        6 => Answer::Nothing,
        7 => Answer::Closed(x),
        8 => Answer::Nothing,
        9 => Answer::Popped(x),
        _ => Answer::Len(x),
    }
}

// With the words as blocks too, and as an answer, so that each arm is a place and nothing else.
fn push_in(
    code: u64,
    a: u64,
    b: u64,
    c: u64,
    d: u64,
    pa: Pointer,
    pb: Pointer,
    pc: Pointer,
    answer: Answer,
) -> Place
    ensures { result ≡ push_in code a b c d pa pb pc answer }
{
    match code {
        0 => Place::U1(pa, b),
        1 => Place::U2(pa, Index(b), c),
        2 => Place::U3(Index(a), pb, c),
        3 => Place::U4(pa, Index(b), c),
        4 => Place::U5(pa, Index(b), pc, d),
        5 => Place::U6(pa, Index(b), pc, d),
        6 => Place::U7(pa, Index(b), pc, d),
        7 => Place::U8(pa, Index(b), c),
        8 => Place::U9(pa, Index(b), pc, d),
        9 => Place::U10(pa, Index(b), pc, d),
        10 => Place::U11(pa, Index(b), pc, d),
        11 => Place::U12(pa, Index(b), pc, d),
        12 => Place::U13(pa, Index(b), pc),
        13 => Place::U14(pa, answer),
        _ => Place::U15(pa, pb, c),
    }
}

fn pop_in(
    code: u64,
    a: u64,
    b: u64,
    c: u64,
    d: u64,
    pa: Pointer,
    pb: Pointer,
    pc: Pointer,
    pd: Pointer,
) -> Place
    ensures { result ≡ pop_in code a b c d pa pb pc pd }
{
    match code {
        0 => Place::V1,
        1 => Place::V2(Index(a)),
        2 => Place::V3(Index(a), pb),
        3 => Place::V4(Index(a), pb, Index(c)),
        4 => Place::V5(Index(a)),
        5 => Place::V6(Index(a), pb, Index(c)),
        6 => Place::V7(Index(a), pb, Index(c), pd),
        7 => Place::V8(Index(a), pb, pc, Index(d)),
        8 => Place::V9(Index(a), pb, Index(c)),
        9 => Place::V10(Index(a), pb),
        10 => Place::V11(Index(a), pb),
        11 => Place::V12(Index(a), pb, c),
        12 => Place::V13(pa, b, c),
        13 => Place::V14(pa, b, c),
        _ => Place::V15(pa, b),
    }
}

fn look_in(code: u64, a: u64, b: u64) -> Place
    ensures { result ≡ look_in code a b }
{
    match code {
        0 => Place::Len1,
        1 => Place::Len2(Index(a)),
        2 => Place::Len3(Index(a), Index(b)),
        3 => Place::Empty1,
        4 => Place::Empty2(Index(a)),
        5 => Place::Full1,
        6 => Place::Close1,
        _ => Place::IsClosed1,
    }
}

pub fn place_in(code: u64, a: u64, b: u64, c: u64, d: u64) -> Place
    ensures { result ≡ place_in code a b c d }
{
    if code < 11 {
        return Place::Idle(answer_in(code, a));
    }
    if 41 <= code {
        return look_in(code - 41, a, b);
    }
    let pa = pointer_in(a);
    let pb = pointer_in(b);
    let pc = pointer_in(c);
    if code < 26 {
        push_in(code - 11, a, b, c, d, pa, pb, pc, answer_in(b, c))
    } else {
        pop_in(code - 26, a, b, c, d, pa, pb, pc, pointer_in(d))
    }
}

// Whether the words are those of a place: a code that one has, and 0 in what it does not hold.
pub fn stands(code: u64, first: u64, second: u64, third: u64, fourth: u64) -> bool
    ensures { result ≡ stands_for code first second third fourth }
{
    code_of(place_in(code, first, second, third, fourth))
        == five(code, first, second, third, fourth)
}
