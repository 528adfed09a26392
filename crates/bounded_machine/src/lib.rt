// The machine: a ring, its workers' records and the meter; and what each rule asks of it.
#![tactic(auto)]

ghost use Rattle.std.specs.Prelude.{◌≡◌, ◌≤◌, ◌<◌, true};
ghost use Rattle.queue_entries.specs.Limits.{workers_most, meter_most};
ghost use Rattle.bounded_words.specs.Limits.{slots_most};
ghost use Rattle.bounded_words.specs.Words.{Fair};
ghost use Rattle.bounded_places.specs.Places.{view_of};
ghost use Rattle.bounded_machine.specs.Machine.{fresh_slots, fresh_of, blank, refused, accepted, fixed_on, ends_on};
ghost use Rattle.queue_entries.specs.Limits.{in_limits};
ghost use Rattle.bounded_machine.specs.Broken.{by_rule, ends_fit, ring_fits, place_fits, record_fits, records_fit, all_idle, broken_of};
ghost use Rattle.bounded_machine.specs.Contents.{wrapped, item_on, Counted};
ghost use Rattle.bounded_machine.specs.Turn.{spot_of, verdict_of, record_after};

use bounded_acts::Acted;
use bounded_places::{Answer, Ends, Held, Loss, Place, Slot, Worker};
use bounded_words::{Claim, Fixed, Stamp};
use queue_entries::{Order, Verdict};

// A ring by value: its two ends, its constants and its slots.
#[derive(Clone, Copy)]
pub struct Ring {
    pub head: Stamp,
    pub tail: Stamp,
    pub mark: u64,
    pub lap: u64,
    pub capacity: u64,
    pub edition: u64,
    pub slots: [Slot; bounded_words::SLOTS],
}

impl Ring {
    // What it keeps unchanged.
    pub fn fixed(&self) -> Fixed
        ensures { result ≡ fixed_on self.now }
    {
        Fixed {
            mark: self.mark,
            lap: self.lap,
            capacity: self.capacity,
            edition: self.edition,
        }
    }

    pub fn ends(&self) -> Ends
        ensures { result ≡ ends_on self.now }
    {
        Ends {
            head: self.head,
            tail: self.tail,
        }
    }
}

#[derive(Clone, Copy)]
pub struct Machine {
    pub ring: Ring,
    pub workers: [Worker; queue_entries::WORKERS],
    // how many of the records are in use
    pub count: u64,
    // accepted acts since the machine was made
    pub meter: u64,
}

// A machine, and the number of the refusal; 0 where it was not refused.
#[derive(Clone, Copy)]
pub struct Did {
    pub refusal: u64,
    pub machine: Machine,
}

// What a schedule reports: the refusal and the entry's place, or 0 and the count of its entries.
#[derive(Clone, Copy)]
pub struct Ran {
    pub refusal: u64,
    pub place: u64,
    pub machine: Machine,
}

// One act of a run.
#[derive(Clone, Copy)]
pub struct Event {
    pub worker: u64,
    pub before: Place,
    pub after: Place,
    pub loss: Loss,
}

// How many claims there were at each end, and how many values were read out.
#[derive(Clone, Copy)]
pub struct Tally {
    pub tail: Claim,
    pub head: Claim,
    pub reads: u64,
}

#[tactic(auto, unfolding(crate::specs::Machine::refused))]
pub fn refuse(m: Machine, number: u64) -> Did
    ensures { result ≡ refused number m }
{
    Did {
        refusal: number,
        machine: m,
    }
}

#[tactic(auto, unfolding(crate::specs::Machine::accepted))]
pub fn accept(m: Machine) -> Did
    ensures { result ≡ accepted m }
{
    Did {
        refusal: 0,
        machine: m,
    }
}

// "A fresh ring starts from empty slots, stamp 0 and value 0; then slot i below capacity gets stamp i."
pub fn fresh_slots(capacity: u64) -> [Slot; bounded_words::SLOTS]
    requires { capacity ≤ slots_most }
    ensures { result ≡ fresh_slots capacity }
{
    let mut slots = [Slot {
        stamp: Stamp(0),
        value: 0,
    }; bounded_words::SLOTS];
    for i in 0..capacity {
        slots[i as usize] = Slot {
            stamp: Stamp(i),
            value: 0,
        };
    }
    slots
}

pub fn fresh(capacity: u64, workers: u64, edition: u64) -> Machine
    requires { capacity ≤ slots_most }
    ensures { result ≡ fresh_of capacity workers edition }
{
    let mark = bounded_words::mark_of(capacity);
    Machine {
        ring: Ring {
            head: Stamp(0),
            tail: Stamp(0),
            mark,
            lap: 2 * mark,
            capacity,
            edition,
            slots: fresh_slots(capacity),
        },
        workers: [Worker {
            place: Place::Idle(Answer::Nothing),
            differed: 0,
            failed: 0,
        }; queue_entries::WORKERS],
        count: workers,
        meter: 0,
    }
}

// "blank machine: all numbers 0, workers idle"
pub fn blank() -> Machine
    ensures { result ≡ blank }
{
    Machine {
        ring: Ring {
            head: Stamp(0),
            tail: Stamp(0),
            mark: 0,
            lap: 0,
            capacity: 0,
            edition: 0,
            slots: [Slot {
                stamp: Stamp(0),
                value: 0,
            }; bounded_words::SLOTS],
        },
        workers: [Worker {
            place: Place::Idle(Answer::Nothing),
            differed: 0,
            failed: 0,
        }; queue_entries::WORKERS],
        count: 0,
        meter: 0,
    }
}

// Broken, part by part.

#[tactic(auto, unfolding(crate::specs::Broken::by_rule))]
fn by_rule(f: Fixed) -> bool
    requires { f.capacity ≤ slots_most }
    ensures { result ≡ by_rule f }
{
    let mark = bounded_words::mark_of(f.capacity);
    f.mark == mark && f.lap == 2 * mark
}

#[tactic(auto, unfolding(crate::specs::Broken::ends_fit))]
fn ends_fit(f: Fixed, e: Ends) -> bool
    requires { Fair f }
    ensures { result ≡ ends_fit f e }
{
    !bounded_words::marked(f, e.head)
        && bounded_places::inside_of(f, e.head)
        && bounded_places::inside_of(f, e.tail)
}

// Whether a ring is not broken, whatever its records.
#[tactic(auto, unfolding(crate::specs::Broken::ring_fits))]
pub fn ring_fits(f: Fixed, e: Ends) -> bool
    ensures { result ≡ ring_fits f e }
{
    if !queue_entries::in_limits(f.edition, bounded_words::EDITIONS) {
        return false;
    }
    if !queue_entries::in_limits(f.capacity, bounded_words::SLOTS as u64) {
        return false;
    }
    by_rule(f) && ends_fit(f, e)
}

#[tactic(auto, unfolding(crate::specs::Broken::place_fits))]
fn place_fits(f: Fixed, p: Place, counted: bool) -> bool
    requires { Fair f }
    ensures { result ≡ place_fits f p counted }
{
    let v = bounded_places::view_of(p);
    !v.busy || counted && bounded_places::fits(f, v.held)
}

#[tactic(auto, unfolding(crate::specs::Broken::record_fits))]
pub fn record_fits(f: Fixed, meter: u64, r: Worker, counted: bool) -> bool
    requires { Fair f }
    ensures { result ≡ record_fits f meter r counted }
{
    r.differed <= meter && r.failed <= meter && place_fits(f, r.place, counted)
}

fn records_fit(f: Fixed, count: u64, meter: u64, workers: [Worker; queue_entries::WORKERS]) -> bool
    requires { Fair f }
    ensures { result ≡ records_fit workers_most f count meter workers }
{
    for (i, record) in workers.iter().enumerate() {
        if !record_fits(f, meter, *record, (i as u64) < count) {
            return false;
        }
    }
    true
}

#[tactic(auto, unfolding(crate::specs::Broken::broken_with))]
pub fn broken(m: Machine) -> bool
    ensures { result ≡ broken_of m }
{
    let f = m.ring.fixed();
    if !ring_fits(f, m.ring.ends()) {
        return true;
    }
    if !queue_entries::in_limits(m.count, queue_entries::WORKERS as u64) {
        return true;
    }
    !records_fit(f, m.count, m.meter, m.workers)
}

pub fn all_idle(workers: [Worker; queue_entries::WORKERS]) -> bool
    ensures { result ≡ all_idle workers }
{
    for worker in &workers {
        if busy(worker.place) {
            return false;
        }
    }
    true
}

// The items between the ends.
pub fn count_in(ring: Ring) -> u64
    requires { ring_fits (fixed_on ring) (ends_on ring) ≡ true }
    ensures { Counted ring result }
{
    bounded_acts::count(ring.fixed(), ring.tail, ring.head)
}

// "wrapping at capacity"
#[tactic(auto, unfolding(crate::specs::Contents::wrapped))]
fn wrap(capacity: u64, i: u64) -> u64
    ensures { result ≡ wrapped capacity i }
{
    if i < capacity { i } else { i - capacity }
}

// The k-th item from index(head).
pub fn item_at(ring: Ring, k: u64) -> u64
    requires ring_value { ring_fits (fixed_on ring) (ends_on ring) ≡ true }
    requires k_lt_slots_most { k < slots_most }
    ensures { result ≡ item_on ring k }
{
    let at = bounded_words::index(ring.fixed(), ring.head) + k;
    ring.slots[wrap(ring.capacity, at) as usize].value
}

// The two that a verdict asks of a place, each by itself: so compiled, an act that is not to lose asks for `weak` nowhere (docs/SPEED.md).
fn busy(p: Place) -> bool
    ensures { result ≡ (view_of p).busy }
{
    bounded_places::view_of(p).busy
}

fn weak(p: Place) -> bool
    ensures { result ≡ (view_of p).weak }
{
    bounded_places::view_of(p).weak
}

// What becomes of a worker that stands at p.
pub fn verdict_of(meter: u64, p: Place, o: Order) -> Verdict
    ensures { result ≡ verdict_of meter p o }
{
    queue_entries::verdict_for(meter, busy(p), weak(p), o)
}

// The index of the slot that the act of a worker with these words goes to; 0 where it goes to none.
pub fn spot(f: Fixed, held: Held) -> u64
    requires { Fair f }
    ensures { result ≡ spot_of f held }
{
    match held {
        Held::End(w) => bounded_words::index(f, w),
        Held::Nothing | Held::Tail(_) | Held::Both(_, _) => 0,
    }
}

// The record after an act that leads to p. A count is at most the meter, so that one more fits.
#[tactic(auto, unfolding(crate::specs::Turn::record_after))]
pub fn record_after(r: Worker, p: Place, l: Loss) -> Worker
    requires { (r.differed < meter_most) × (r.failed < meter_most) }
    ensures { result ≡ record_after r p l }
{
    match l {
        Loss::Nothing => Worker { place: p, ..r },
        Loss::ByWords => Worker {
            place: p,
            differed: r.differed + 1,
            ..r
        },
        Loss::BySchedule => Worker {
            place: p,
            failed: r.failed + 1,
            ..r
        },
    }
}
