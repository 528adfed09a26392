// A machine, of a few numbers. All workers but one are idle without an answer.
use single_machine::Machine;
use single_places::{Answer, Place};
use single_words::State;

// State word and value, workers and meter; and a worker, 16 for none, the number of its place and the words that it holds there.
pub const NUMBERS: usize = 8;

// Two workers, and 5 pushed.
pub fn base() -> [u64; NUMBERS] {
    [2, 5, 2, 3, 16, 0, 0, 0]
}

pub fn with_place(n: [u64; NUMBERS], w: u64, code: u64, a: u64, b: u64) -> [u64; NUMBERS] {
    [n[0], n[1], n[2], n[3], w, code, a, b]
}

// By its place in the order of single_text::code::Case; an idle worker's answer is Popped.
pub fn place_in(case: u64, a: u64, b: u64) -> Place {
    match case {
        0 => Place::Idle(Answer::Popped(a)),
        1 => Place::A1(a),
        2 => Place::A2(a),
        3 => Place::A3,
        4 => Place::B1(State(a), b),
        5 => Place::B2(a),
        6 => Place::B3,
        7 => Place::B4(a),
        8 => Place::B5(a),
        9 => Place::C1(State(a)),
        10 => Place::C2,
        11 => Place::C3(a),
        12 => Place::Len1,
        13 => Place::Empty1,
        14 => Place::Full1,
        15 => Place::Close1,
        _ => Place::IsClosed1,
    }
}

pub fn machine(n: [u64; NUMBERS]) -> Machine {
    let made = single::make(2).machine;
    let stood = single_text::build::with_place(made, n[4] as usize, place_in(n[5], n[6], n[7]));
    let m = single_text::build::with_single(stood, n[0], n[1]);
    single_text::build::with_numbers(m, n[2], n[3])
}
