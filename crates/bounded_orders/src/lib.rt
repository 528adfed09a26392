// What the faces share, whoever keeps ring and records: making, schedules, capacity and contents, but for the records. One entry is bounded_step_record'.
#![tactic(auto)]

ghost use Rattle.std.specs.Prelude.{◌≡◌, true, false};
ghost use Rattle.bounded_orders.specs.Orders.{ring_fits_lent, make_refusal_with, made_from, made_of, unless_refused, judged_of, capacity_told, filled, contents_by, contents_on};
ghost use Rattle.bounded_machine.specs.Machine.{idler, fixed_on, ends_on};
ghost use Rattle.bounded_machine.specs.Broken.{ring_fits};

use bounded_machine::{Machine, Ring};
use bounded_places::{Answer, Ends, Place, Worker};
use bounded_words::Fixed;

// What a host keeps beside the records: the ring, and the accepted acts since it was made.
#[derive(Clone, Copy)]
pub struct Metered {
    pub ring: Ring,
    pub meter: u64,
}

// A ring that was made, and the number of the refusal; 0 where it was not refused.
#[derive(Clone, Copy)]
pub struct Made {
    pub refusal: u64,
    pub ring: Metered,
}

// What a schedule reports: the refusal and the entry's place, or 0 and the count of its entries.
#[derive(Clone, Copy)]
pub struct Report {
    pub refusal: u64,
    pub place: u64,
}

// The most records that are lent.
pub const RECORDS: usize = 64;

// Whether a ring is not broken, lent with so many records; the records are another matter.
#[tactic(auto, unfolding(crate::specs::Orders::ring_fits_lent))]
pub fn ring_fits(f: Fixed, e: Ends, count: usize) -> bool
    ensures { result ≡ ring_fits_lent f e count }
{
    queue_entries::in_limits(count as u64, RECORDS as u64) && bounded_machine::ring_fits(f, e)
}

// The number of the refusal where there are at most so many records; 0 where making is not refused.
#[tactic(auto, unfolding(crate::specs::Orders::make_refusal_with))]
pub fn make_refusal(most: u64, capacity: u64, workers: u64, edition: u64) -> u64
    ensures { result ≡ make_refusal_with most capacity workers edition }
{
    if !queue_entries::in_limits(capacity, bounded_words::SLOTS as u64) {
        return 1;
    }
    if !queue_entries::in_limits(workers, most) {
        return 2;
    }
    if !queue_entries::in_limits(edition, bounded_words::EDITIONS) {
        return 18;
    }
    0
}

fn made_from(number: u64, m: Machine) -> Made
    ensures { result ≡ made_from number m }
{
    Made {
        refusal: number,
        ring: Metered {
            ring: m.ring,
            meter: m.meter,
        },
    }
}

pub fn make(count: usize, capacity: u64, edition: u64) -> Made
    ensures { result ≡ made_of count capacity edition }
{
    let number = make_refusal(RECORDS as u64, capacity, count as u64, edition);
    if number == 0 {
        made_from(0, bounded_machine::fresh(capacity, count as u64, edition))
    } else {
        made_from(number, bounded_machine::blank())
    }
}

pub fn unless_refused(number: u64, count: usize) -> usize
    ensures { result ≡ unless_refused number count }
{
    if number == 0 { count } else { 0 }
}

// A record as making leaves it.
pub fn idle() -> Worker
    ensures { result ≡ idler }
{
    Worker {
        place: Place::Idle(Answer::Nothing),
        differed: 0,
        failed: 0,
    }
}

pub fn judged(broken: bool, schedule: &[u64]) -> Report
    ensures { result ≡ judged_of broken schedule.now }
{
    if broken {
        return Report {
            refusal: 6,
            place: 0,
        };
    }
    if schedule.len() % 2 == 1 {
        return Report {
            refusal: 11,
            place: 0,
        };
    }
    match queue_entries::search(schedule) {
        Some(place) => Report {
            refusal: 9,
            place: place as u64,
        },
        None => Report {
            refusal: 0,
            place: (schedule.len() / 2) as u64,
        },
    }
}

// How many entries are run.
pub fn entries_of(r: Report) -> usize
    ensures { result ≡ unless_refused r.refusal r.place }
{
    unless_refused(r.refusal, r.place as usize)
}

pub fn capacity_told(broken: bool, capacity: u64) -> Result<u64, u64>
    ensures { result ≡ capacity_told broken capacity }
{
    if broken {
        return Err(6);
    }
    Ok(capacity)
}

// The items between the ends, written at the buffer's start, of a ring that is broken or not, whose workers are all idle or not.
pub fn contents_by(broken: bool, idle: bool, ring: Ring, buffer: &mut [u64]) -> Result<u64, u64>
    requires { broken ≡ false → ring_fits (fixed_on ring) (ends_on ring) ≡ true }
    ensures { filled result buffer.new ≡ contents_by broken idle ring buffer.old }
{
    if broken {
        return Err(6);
    }
    if !idle {
        return Err(4);
    }
    let n = bounded_machine::count_in(ring);
    if buffer.len() < (n as usize) {
        return Err(10);
    }
    for k in 0..n {
        buffer[k as usize] = bounded_machine::item_at(ring, k);
    }
    Ok(n)
}

// The same of a ring by itself.
pub fn contents_on(idle: bool, ring: Ring, buffer: &mut [u64]) -> Result<u64, u64>
    ensures { filled result buffer.new ≡ contents_on idle ring buffer.old }
{
    let fits = bounded_machine::ring_fits(ring.fixed(), ring.ends());
    contents_by(!fits, idle, ring, buffer)
}
