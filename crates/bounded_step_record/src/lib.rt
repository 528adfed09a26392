// One entry on what it touches alone: its worker's record, and the slot that its act goes to. Whoever keeps a ring and records takes the two out, and puts back what the entry leaves.
#![tactic(auto)]

ghost use Rattle.std.specs.Prelude.{◌≡◌, true};
ghost use Rattle.bounded_words.specs.Words.{Fair};
ghost use Rattle.bounded_machine.specs.Broken.{record_fits};
ghost use Rattle.bounded_step_record.specs.Entries.{worker_of, slot_of_ring, with, turned_of};

use bounded_acts::Acted;
use bounded_places::{Ends, Slot, Worker};
use bounded_words::{Fixed, Width};
use queue_entries::{Entry, Verdict};

// What an entry leaves of what it was handed, and the number of its refusal; 0 where it was not refused.
#[derive(Clone, Copy)]
pub struct Turned {
    pub refusal: u64,
    pub ends: Ends,
    pub slot: Slot,
    pub worker: Worker,
    pub meter: u64,
}

pub fn worker_of(first: u64, count: usize) -> usize
    ensures { result ≡ worker_of first count }
{
    let w = first / 16;
    if w < count as u64 { w as usize } else { 0 }
}

pub fn slot_of(f: Fixed, r: Worker) -> usize
    requires { Fair f }
    ensures { result ≡ slot_of_ring f r }
{
    let v = bounded_places::view_of(r.place);
    if v.busy {
        bounded_machine::spot(f, v.held) as usize
    } else {
        0
    }
}

fn with(number: u64, e: Ends, s: Slot, r: Worker, meter: u64) -> Turned
    ensures { result ≡ with number e s r meter }
{
    Turned {
        refusal: number,
        ends: e,
        slot: s,
        worker: r,
        meter,
    }
}

pub fn turn_on(
    bits: Width,
    f: Fixed,
    e: Ends,
    s: Slot,
    r: Worker,
    meter: u64,
    count: usize,
    first: u64,
    second: u64,
) -> Turned
    requires fair { Fair f }
    requires true_value { record_fits f meter r true ≡ true }
    ensures { result ≡ turned_of bits f e s r meter count first second }
{
    let Entry::Asks(worker, order) = queue_entries::entry_of(first, second) else {
        return with(9, e, s, r, meter);
    };
    if count as u64 <= worker {
        return with(3, e, s, r, meter);
    }
    match bounded_machine::verdict_of(meter, r.place, order) {
        Verdict::Refuse(number) => with(number, e, s, r, meter),
        Verdict::Start(call) => {
            let begun = Worker {
                place: bounded_places::first_place(call),
                differed: 0,
                failed: 0,
            };
            with(0, e, s, begun, meter)
        }
        Verdict::Move(lose) => {
            let a = bounded_table::act_at(bits, f, e, s, r.place, lose);
            let after = bounded_machine::record_after(r, a.place, a.loss);
            with(0, a.ends, a.slot, after, meter + 1)
        }
    }
}
