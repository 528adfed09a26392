// The one-slot queue's places and machines: by names and numbers, as text, whether two are the same; and machines built by hand, field by field.
#![tactic(auto)]

use single_machine::Machine;
use single_places::{Answer, Place};

pub mod alike;
pub mod build;
pub mod code;
pub mod text;

// State word, meter, value and the number of workers.
pub fn numbers(m: Machine) -> [u64; 4] {
    [m.single.state.0, m.meter, m.single.value, m.count]
}

// Where a worker stands; idle without an answer where there is no such record.
pub fn place_of(m: Machine, w: u64) -> Place {
    let i = w as usize;
    if i < queue_entries::WORKERS {
        return m.workers[i].place;
    }
    Place::Idle(Answer::Nothing)
}

// Of each worker what it answered last, by its code (single_codes) and its number.
pub fn answers(m: Machine) -> [u64; 128] {
    let mut list = [0u64; 128];
    for w in 0..queue_entries::WORKERS {
        let c = single_codes::code_of(m.workers[w].place);
        list[2 * w] = c.code;
        list[2 * w + 1] = c.first;
    }
    list
}
