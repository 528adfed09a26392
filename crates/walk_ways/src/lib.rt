// In which ways the sequences of a list end: for each worker, and for all together. A machine is in hand only where a sequence is run.
#![tactic(auto)]

use bounded_machine::Machine;
use bounded_places::{Place, Worker};
use bounded_text_words::WORDS;
use text_system::System;
use walk_ends::{End, Ends, Ways};
use walk_lists::Sequences;

const WORDS_OF_ACTS: usize = 2 * queue_walks::DEPTH;

// As a schedule has them, two words each.
fn words_of(acts: &[u8]) -> [u64; WORDS_OF_ACTS] {
    let mut words = [0; WORDS_OF_ACTS];
    for (word, act) in words.iter_mut().step_by(2).zip(acts) {
        *word = walk_lists::word_of(*act);
    }
    words
}

fn end_of(worker: &Worker) -> End {
    match worker.place {
        Place::Idle(_) => {
            let c = bounded_codes::code_of(worker.place);
            End::Idle(c.code, c.first)
        }
        _ => End::Busy,
    }
}

fn ends_of(m: Machine) -> Ends {
    let mut ends = [None; 3];
    for (end, worker) in ends.iter_mut().zip(&m.workers).take(m.count as usize) {
        *end = Some(end_of(worker));
    }
    ends
}

fn ends_after(m: Machine, acts: &[u8]) -> Ends {
    let words = words_of(acts);
    let n = acts.len().min(queue_walks::DEPTH);
    ends_of(bounded::run(m, &words[..2 * n]).machine)
}

fn only_of(ends: Ends, worker: Option<usize>) -> Ends {
    match worker {
        Some(w) if w < 3 => {
            let mut only = [None; 3];
            only[w] = ends[w];
            only
        }
        _ => ends,
    }
}

// Each way of this worker, or of all together.
pub fn count<'a>(
    system: &System,
    m: [u64; WORDS],
    list: &'a [u8],
    worker: Option<usize>,
) -> Ways<'a> {
    let machine = bounded_text_faces::machine::read(m);
    let mut ways = Ways::new();
    for (place, acts) in Sequences::of(list) {
        walk_lists::said::past(system, place, acts.len());
        ways.count(only_of(ends_after(machine, acts), worker), acts);
    }
    ways
}

// The machine after these acts.
pub fn left(m: [u64; WORDS], acts: &[u8]) -> [u64; WORDS] {
    let words = words_of(acts);
    let n = acts.len().min(queue_walks::DEPTH);
    bounded_text_faces::run(m, &words[..2 * n]).words
}
