// What is noted along a run: claims, counted, exchanges lost, and who has the item that is followed.
use crate::Entered;
use single_text::code::{Case, Coded};

#[derive(Clone, Copy)]
pub struct Notes {
    // claims of pushes and of pops
    pub puts: u64,
    pub takes: u64,
    pub lost: u64,
    // the slot has the item that is followed
    pub held: bool,
    // and was met at all
    pub met: bool,
    // of each worker whether its call is of that item's life
    pub workers: [bool; queue_entries::WORKERS],
}

pub fn none() -> Notes {
    Notes {
        puts: 0,
        takes: 0,
        lost: 0,
        held: false,
        met: false,
        workers: [false; queue_entries::WORKERS],
    }
}

pub fn is_put(e: Entered) -> bool {
    matches!(
        (e.before.case, e.after.case),
        (Case::A1, Case::A2) | (Case::B1, Case::B2 | Case::B4)
    )
}

pub fn is_taken(e: Entered) -> bool {
    matches!(
        (e.before.case, e.after.case),
        (Case::B1, Case::B4) | (Case::C1, Case::C2)
    )
}

// An exchange that was not won.
pub fn is_lost(e: Entered) -> bool {
    matches!(e.before.case, Case::A1 | Case::B1 | Case::C1) && !is_put(e) && !is_taken(e)
}

// The act leads to the same exchange again.
pub fn is_back(e: Entered) -> bool {
    is_lost(e) && e.after.case != Case::Idle
}

// The item that a push's claim takes in.
fn item_of(before: Coded) -> u64 {
    if before.case == Case::B1 {
        before.b
    } else {
        before.a
    }
}

fn is_worker(n: Notes, i: usize) -> bool {
    i < queue_entries::WORKERS && n.workers[i]
}

// The entry begins the life of this item, or claims it to hand it out.
fn takes_up(n: Notes, e: Entered, item: u64) -> bool {
    if e.first % 16 < 2 {
        return e.second == item;
    }
    n.held && is_taken(e)
}

// Whether an entry belongs to the life of this item.
pub fn is_of(n: Notes, e: Entered, item: u64) -> bool {
    is_worker(n, (e.first / 16) as usize) || takes_up(n, e, item)
}

fn up_if(n: u64, it: bool) -> u64 {
    if it { n.wrapping_add(1) } else { n }
}

fn held_after(n: Notes, e: Entered, item: u64) -> bool {
    if is_put(e) {
        return item_of(e.before) == item;
    }
    n.held
}

fn workers_after(n: Notes, e: Entered, item: u64) -> [bool; queue_entries::WORKERS] {
    let mut workers = n.workers;
    let i = (e.first / 16) as usize;
    if i < queue_entries::WORKERS {
        workers[i] = e.after.case != Case::Idle && is_of(n, e, item);
    }
    workers
}

// After an entry, where this item is followed.
pub fn noted(n: Notes, e: Entered, item: u64) -> Notes {
    Notes {
        puts: up_if(n.puts, is_put(e)),
        takes: up_if(n.takes, is_taken(e)),
        lost: up_if(n.lost, is_lost(e)),
        held: held_after(n, e, item),
        met: n.met || is_of(n, e, item),
        workers: workers_after(n, e, item),
    }
}
