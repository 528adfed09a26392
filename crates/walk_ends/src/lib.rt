// Ways to end: the ends of up to three workers, how many sequences end so, and the first of the shortest of them.
#![tactic(auto)]

// The most ways that are kept.
pub const ROWS: usize = 512;

// A worker's end: its call is under way, or it is idle with an answer, which is a code (bounded_codes) and the item in it.
#[derive(Clone, Copy, PartialEq, Eq)]
pub enum End {
    Busy,
    Idle(u64, u64),
}

// None: this worker's end makes no difference, or there is no such worker.
pub type Ends = [Option<End>; 3];

#[derive(Clone, Copy)]
pub struct Way<'a> {
    pub ends: Ends,
    pub times: u64,
    pub shortest: &'a [u8],
}

impl<'a> Way<'a> {
    fn again(&mut self, acts: &'a [u8]) {
        self.times = self.times.wrapping_add(1);
        if acts.len() < self.shortest.len() {
            self.shortest = acts;
        }
    }
}

#[derive(Drop)]
pub struct Ways<'a> {
    rows: [Way<'a>; ROWS],
    // At most ROWS, which stands in no ghost field: of a struct that has one `count` could lend no row to be changed.
    kept: usize,
    unlisted: usize,
}

impl<'a> Ways<'a> {
    pub fn new() -> Ways<'a> {
        let none = Way {
            ends: [None; 3],
            times: 0,
            shortest: &[],
        };
        Ways {
            rows: [none; ROWS],
            kept: 0,
            unlisted: 0,
        }
    }

    // In the order in which they were met.
    pub fn listed(&self) -> &[Way<'a>] {
        &self.rows[..self.kept.min(ROWS)]
    }

    // How many sequences end in a way that found no row.
    pub fn unlisted(&self) -> usize {
        self.unlisted
    }

    // One sequence more, of these acts, that ends so.
    pub fn count(&mut self, ends: Ends, acts: &'a [u8]) {
        let kept = self.kept.min(ROWS);
        match self.rows[..kept].iter_mut().find(|way| way.ends == ends) {
            Some(way) => way.again(acts),
            None => self.add(ends, acts),
        }
    }

    fn add(&mut self, ends: Ends, acts: &'a [u8]) {
        if self.kept < ROWS {
            self.rows[self.kept] = Way {
                ends,
                times: 1,
                shortest: acts,
            };
            self.kept += 1;
        } else {
            self.unlisted = self.unlisted.wrapping_add(1);
        }
    }
}
