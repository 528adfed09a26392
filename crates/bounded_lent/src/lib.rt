// A ring and worker records in the host's memory, lent for each entry (document 02, item 11). Each function here takes the one record and the one slot apart,
// calls a covered function of crate bounded_step_record or bounded_orders on them by value, and stores them back.
#![tactic(auto)]

ghost use Rattle.std.specs.Prelude.{◌≡◌, false};
ghost use Rattle.bounded_words.specs.Words.{Fair};
ghost use Rattle.bounded_orders.specs.Orders.{filled};
ghost use Rattle.bounded_lent.specs.Lent.{each_fits, broken_lent, lent, turn_lent, step_lent, gone, run_lent, make_lent, capacity_lent, contents_lent};

use bounded_orders::{Made, Metered, Report};
use bounded_places::{Ends, Worker};
use bounded_words::{Fixed, Width};

// Whether every record fits the ring, as one within the count does or as one past it, which has to be idle.
fn records_fit(records: &[Worker], f: Fixed, meter: u64, counted: bool) -> bool
    requires { Fair f }
    ensures { result ≡ each_fits f meter counted records.now }
{
    for record in records {
        if !bounded_machine::record_fits(f, meter, *record, counted) {
            return false;
        }
    }
    true
}

pub fn broken(ring: &Metered, records: &[Worker]) -> bool
    ensures { result ≡ broken_lent ring.now records.now }
{
    let f = Fixed {
        mark: ring.ring.mark,
        lap: ring.ring.lap,
        capacity: ring.ring.capacity,
        edition: ring.ring.edition,
    };
    let e = Ends {
        head: ring.ring.head,
        tail: ring.ring.tail,
    };
    if !bounded_orders::ring_fits(f, e, records.len()) {
        return true;
    }
    !records_fit(records, f, ring.meter, true)
}

// One entry, on a ring and records that are not broken.
fn turn(ring: &mut Metered, records: &mut [Worker], first: u64, second: u64) -> u64
    requires { broken_lent ring.old records.old ≡ false }
    ensures { lent result ring.new records.new ≡ turn_lent ring.old records.old first second }
{
    let count = records.len();
    let w = bounded_step_record::worker_of(first, count);
    let worker = records[w];
    let f = Fixed {
        mark: ring.ring.mark,
        lap: ring.ring.lap,
        capacity: ring.ring.capacity,
        edition: ring.ring.edition,
    };
    let k = bounded_step_record::slot_of(f, worker);
    let e = Ends {
        head: ring.ring.head,
        tail: ring.ring.tail,
    };
    let t = bounded_step_record::turn_on(
        Width::SixtyFour,
        f,
        e,
        ring.ring.slots[k],
        worker,
        ring.meter,
        count,
        first,
        second,
    );
    ring.ring.head = t.ends.head;
    ring.ring.tail = t.ends.tail;
    ring.ring.slots[k] = t.slot;
    ring.meter = t.meter;
    records[w] = t.worker;
    t.refusal
}

pub fn step(ring: &mut Metered, records: &mut [Worker], first: u64, second: u64) -> u64
    ensures { lent result ring.new records.new ≡ step_lent ring.old records.old first second }
{
    if broken(ring, records) {
        return 6;
    }
    turn(ring, records, first, second)
}

// A schedule, entry by entry, to its end or to the first refusal; 6 is judged once, since no entry breaks what is not broken.
pub fn run(ring: &mut Metered, records: &mut [Worker], schedule: &[u64]) -> Report
    ensures { gone result ring.new records.new ≡ run_lent ring.old records.old schedule.now }
{
    let whole = bounded_orders::judged(broken(ring, records), schedule);
    let n = bounded_orders::entries_of(whole);
    for i in 0..n {
        let refusal = turn(ring, records, schedule[2 * i], schedule[2 * i + 1]);
        if refusal != 0 {
            return Report {
                refusal,
                place: i as u64,
            };
        }
    }
    whole
}

// A fresh ring and all records idle, or refusal 1, 2 or 18 with the blank ring and the records as they were.
pub fn make(records: &mut [Worker], capacity: u64, edition: u64) -> Made
    ensures { lent result.refusal result.ring records.new ≡ make_lent records.old capacity edition }
{
    let count = records.len();
    let made = bounded_orders::make(count, capacity, edition);
    let n = bounded_orders::unless_refused(made.refusal, count);
    for i in 0..n {
        records[i] = bounded_orders::idle();
    }
    made
}

pub fn capacity(ring: &Metered, records: &[Worker]) -> Result<u64, u64>
    ensures { result ≡ capacity_lent ring.now records.now }
{
    bounded_orders::capacity_told(broken(ring, records), ring.ring.capacity)
}

// The items as `Drop` would meet them, written at the buffer's start. Nothing is removed.
pub fn contents(ring: &Metered, records: &[Worker], buffer: &mut [u64]) -> Result<u64, u64>
    ensures { filled result buffer.new ≡ contents_lent ring.now records.now buffer.old }
{
    if broken(ring, records) {
        return Err(6);
    }
    let f = Fixed {
        mark: ring.ring.mark,
        lap: ring.ring.lap,
        capacity: ring.ring.capacity,
        edition: ring.ring.edition,
    };
    let idle = records_fit(records, f, ring.meter, false);
    bounded_orders::contents_on(idle, ring.ring, buffer)
}
