// What is noted along a run: claims at each end, counted, exchanges lost, and who has the item that is followed.
use crate::{Entered, stood};
use unbounded_text_places::code::Case;

#[derive(Clone, Copy)]
pub struct Notes {
    pub tails: u64,
    pub heads: u64,
    pub differed: u64,
    pub failed: u64,
    // the item that is followed was met
    pub met: bool,
    // of each worker whether its call is of its life
    pub workers: [bool; queue_entries::WORKERS],
}

pub fn none() -> Notes {
    Notes {
        tails: 0,
        heads: 0,
        differed: 0,
        failed: 0,
        met: false,
        workers: [false; queue_entries::WORKERS],
    }
}

pub fn is_tail_claim(e: Entered) -> bool {
    e.before.case == Case::U7 && e.after.case != Case::U8
}

pub fn is_head_claim(e: Entered) -> bool {
    e.before.case == Case::V4 && e.after.case != Case::V5
}

// The exchange of U7 or V4 was not won; whether the word found is the one expected.
fn found_same(e: Entered) -> Option<bool> {
    match (e.before.case, e.after.case) {
        (Case::U7, Case::U8) => Some(e.after.words[1] == e.before.words[1]),
        (Case::V4, Case::V5) => Some(e.after.words[0] == e.before.words[0]),
        _ => None,
    }
}

// The exchange failed by the schedule: the word found is the one expected.
pub fn is_failed(e: Entered) -> bool {
    found_same(e) == Some(true)
}

pub fn is_differed(e: Entered) -> bool {
    if e.before.case == Case::U5 {
        return e.after.case != Case::U6;
    }
    found_same(e) == Some(false)
}

// Which slot of the pool's a claim is of.
fn slot_of(e: Entered) -> usize {
    let words = e.before.words;
    if e.before.case == Case::U7 {
        return slot_at(words[2], words[1]);
    }
    slot_at(words[1], words[0])
}

fn slot_at(block: u64, word: u64) -> usize {
    if block < 64 {
        return (block * 31).wrapping_add(stood::offset(word)) as usize;
    }
    unbounded_words::POOL
}

// A push's claim of this item, or of another one, is noted at its slot: 1 where it has the item that is followed.
pub fn claims(slots: &mut [u64], e: Entered, item: u64) {
    let i = slot_of(e);
    if is_tail_claim(e) && i < slots.len() {
        slots[i] = u64::from(e.before.words[3] == item);
    }
}

fn is_worker(n: Notes, i: usize) -> bool {
    i < queue_entries::WORKERS && n.workers[i]
}

// The entry begins the life of this item, or claims it to hand it out.
fn takes_up(slots: &[u64], e: Entered, item: u64) -> bool {
    if e.first % 16 == 0 {
        return e.second == item;
    }
    let i = slot_of(e);
    is_head_claim(e) && i < slots.len() && slots[i] != 0
}

// Whether an entry belongs to the life of this item.
pub fn is_of(n: Notes, slots: &[u64], e: Entered, item: u64) -> bool {
    is_worker(n, (e.first / 16) as usize) || takes_up(slots, e, item)
}

fn up_if(n: u64, it: bool) -> u64 {
    if it { n.wrapping_add(1) } else { n }
}

fn workers_after(n: Notes, e: Entered, is_of: bool) -> [bool; queue_entries::WORKERS] {
    let mut workers = n.workers;
    let i = (e.first / 16) as usize;
    if i < queue_entries::WORKERS {
        workers[i] = e.after.case != Case::Idle && is_of;
    }
    workers
}

// After an entry that is of the followed item's life or not.
pub fn noted(n: Notes, e: Entered, is_of: bool) -> Notes {
    Notes {
        tails: up_if(n.tails, is_tail_claim(e)),
        heads: up_if(n.heads, is_head_claim(e)),
        differed: up_if(n.differed, is_differed(e)),
        failed: up_if(n.failed, is_failed(e)),
        met: n.met || is_of,
        workers: workers_after(n, e, is_of),
    }
}
