// A machine of the ring as words: as text, word by word, and whether two are the same. No machine is in hand here, which is what makes a
// check dear; bounded_text_faces makes a machine of the words and hands it to the face.
#![tactic(auto)]

pub mod text;

// Where each word stands: the numbers first, in the order in which a line says them.
pub const HEAD: usize = 0;

pub const TAIL: usize = 1;

pub const METER: usize = 2;

pub const CAPACITY: usize = 3;

pub const MARK: usize = 4;

pub const LAP: usize = 5;

pub const COUNT: usize = 6;

pub const EDITION: usize = 7;

// Of each of 1,024 slots its stamp and its value.
pub const SLOTS: usize = 8;

// Of each of 16 records the code of its place (bounded_codes), the two words held there, and the two counts of lost exchanges.
pub const RECORDS: usize = 2056;

pub const WORDS: usize = 2136;

pub fn with(m: [u64; WORDS], i: usize, n: u64) -> [u64; WORDS] {
    let mut after = m;
    if i < WORDS {
        after[i] = n;
    }
    after
}

// Whether two are the same in every word: what a refused call must leave.
pub fn same(a: [u64; WORDS], b: [u64; WORDS]) -> bool {
    a == b
}

// A word of a worker's record; 0 where there is no such record.
pub fn record(m: [u64; WORDS], worker: u64, which: usize) -> u64 {
    if worker < 16 && which < 5 {
        return m[RECORDS + 5 * (worker as usize) + which];
    }
    0
}
