// A ring and its records as words, and all entries of a list at once, by the one loop over a machine (crate bounded_runs), which is read out of the words before it and
// stored as words after it.
#![tactic(auto)]

ghost use Rattle.std.specs.Prelude.{◌≤◌};

use bounded_machine::{Machine, Ring};
use bounded_orders::Metered;
use bounded_places::Worker;
use bounded_words::Width;
use replay_survey::pieces::Run;

// Room for one record more than are lent, with which making is refused.
const RECORDS: usize = bounded_orders::RECORDS + 1;

pub const ROOM: usize = RECORDS * bounded_slices::RECORD;

// The most words that a machine's records have.
const KEPT: usize = queue_entries::WORKERS * bounded_slices::RECORD;

// How many records are handed to making; too many where the machine that holds them has fewer.
pub fn records_of(lent: bool, workers: u64) -> usize
    ensures { result ≤ 65 }
{
    let most = if lent {
        bounded_orders::RECORDS
    } else {
        queue_entries::WORKERS
    };
    if workers <= most as u64 {
        workers as usize
    } else {
        RECORDS
    }
}

// Lent, as a host lends them.
#[derive(Drop)]
pub struct Lent<'a> {
    pub head: &'a mut [u64],
    pub slots: &'a mut [u64],
    pub records: &'a mut [u64],
}

pub fn width(narrow: bool) -> Width {
    if narrow {
        Width::Sixteen
    } else {
        Width::SixtyFour
    }
}

// The words of the ring but for its slots.
pub fn ring_in(head: &[u64]) -> [u64; 8] {
    let mut ring = [0; bounded_slices::HEAD];
    if head.len() == bounded_slices::HEAD {
        ring.copy_from_slice(head);
    }
    ring
}

// The words of the record that an entry asks for; of the first where there is none with that number.
pub fn record_in(records: &[u64], first: u64) -> [u64; 5] {
    let mut record = [0; bounded_slices::RECORD];
    let count = records.len() / bounded_slices::RECORD;
    let w = bounded_step_record::worker_of(first, count);
    if w < count {
        let at = w * bounded_slices::RECORD;
        record.copy_from_slice(&records[at..at + bounded_slices::RECORD]);
    }
    record
}

// The records, and idle ones behind them.
fn workers_in(records: &[u64]) -> [Worker; queue_entries::WORKERS] {
    let n = records.len() / bounded_slices::RECORD;
    let mut workers = [bounded_orders::idle(); queue_entries::WORKERS];
    for (i, worker) in workers.iter_mut().enumerate() {
        if i < n {
            *worker = bounded_rows::record_at(records, i);
        }
    }
    workers
}

impl Lent<'_> {
    pub fn make(&mut self, capacity: u64, edition: u64) -> u64 {
        bounded_host::fern_ring_make(self.head, self.slots, self.records, capacity, edition)
    }

    pub fn is_broken(&self) -> bool {
        bounded_slices::broken(self.head, self.slots, self.records)
    }

    // A machine has room for the records.
    pub fn is_kept(&self) -> bool {
        self.records.len() <= KEPT
    }

    pub fn ring(&self) -> [u64; 8] {
        ring_in(self.head)
    }

    fn machine(&self) -> Machine {
        if self.head.len() != bounded_slices::HEAD || self.slots.len() != bounded_slices::SLOTS {
            return bounded_machine::blank();
        }
        let fixed = bounded_rows::fixed_in(self.head);
        let ends = bounded_rows::ends_in(self.head);
        Machine {
            ring: Ring {
                head: ends.head,
                tail: ends.tail,
                mark: fixed.mark,
                lap: fixed.lap,
                capacity: fixed.capacity,
                edition: fixed.edition,
                slots: bounded_slices::slots_in(self.slots),
            },
            workers: workers_in(self.records),
            count: (self.records.len() / bounded_slices::RECORD) as u64,
            meter: self.head[6],
        }
    }

    fn put(&mut self, m: Machine) {
        if self.head.len() != bounded_slices::HEAD || self.slots.len() != bounded_slices::SLOTS {
            return;
        }
        bounded_slices::put_ring(
            self.head,
            Metered {
                ring: m.ring,
                meter: m.meter,
            },
        );
        bounded_slices::put_slots(self.slots, m.ring.slots);
        for (i, worker) in m.workers.iter().enumerate() {
            if i < self.records.len() / bounded_slices::RECORD {
                bounded_rows::put_record(self.records, i, *worker);
            }
        }
    }

    // All entries of the list.
    pub fn run(&mut self, run: Run, bits: Width, list: &[u64]) -> Run {
        let ran = bounded_runs::run(bits, self.machine(), list);
        self.put(ran.machine);
        run.ran(ran.place, ran.refusal)
    }
}
