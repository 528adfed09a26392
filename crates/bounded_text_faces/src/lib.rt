// The face `bounded` on a machine that is words (bounded_text_words): a machine is made of them, handed to the face and written back, in
// functions so short that no check is dear by it.
#![tactic(auto)]

pub mod machine;

use bounded_machine::{Did, Machine, Ran};
use bounded_text_words::WORDS;

// What an entry is handed to.
#[derive(Clone, Copy, PartialEq, Eq)]
pub enum Call {
    Begin,
    Act,
    Step,
}

// What a call leaves: the refusal, of a schedule the entry's place, and the machine.
#[derive(Clone, Copy)]
pub struct Left {
    pub refusal: u64,
    pub place: u64,
    pub words: [u64; WORDS],
}

fn of_did(d: Did) -> Left {
    Left {
        refusal: d.refusal,
        place: 0,
        words: machine::written(d.machine),
    }
}

fn of_ran(r: Ran) -> Left {
    Left {
        refusal: r.refusal,
        place: r.place,
        words: machine::written(r.machine),
    }
}

pub fn make(capacity: u64, workers: u64, edition: u64) -> Left {
    of_did(bounded::make(capacity, workers, edition))
}

fn done(call: Call, m: Machine, first: u64, second: u64) -> Did {
    match call {
        Call::Begin => bounded::begin(m, first, second),
        Call::Act => bounded::act(m, first, second),
        Call::Step => bounded::step(m, first, second),
    }
}

// One entry, handed to `begin`, `act` or `step`.
pub fn enter(call: Call, m: [u64; WORDS], first: u64, second: u64) -> Left {
    of_did(done(call, machine::read(m), first, second))
}

pub fn run(m: [u64; WORDS], schedule: &[u64]) -> Left {
    of_ran(bounded::run(machine::read(m), schedule))
}

pub fn broken(m: [u64; WORDS]) -> bool {
    bounded::broken(machine::read(m))
}

pub fn capacity(m: [u64; WORDS]) -> Result<u64, u64> {
    bounded::capacity(machine::read(m))
}

pub fn contents(m: [u64; WORDS], buffer: &mut [u64]) -> Result<u64, u64> {
    bounded::contents(machine::read(m), buffer)
}
