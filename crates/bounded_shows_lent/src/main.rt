// A ring that is lent other records than it last saw: fewer, more, none, busy ones with words that do not fit, counts above the meter; and a push to its end, with the slot that it writes. The file `stdout` is written from documents 01 and 02.
#![tactic(auto)]

use bounded_lent_by_value::Stepped;
use bounded_orders::Metered;
use bounded_places::{Answer, Kind, Place, Worker};
use bounded_words::Stamp;
use text_system::System;

type Records = [Worker; bounded_orders::RECORDS];

fn words_of(r: &Worker) -> [u64; 5] {
    let c = bounded_codes::code_of(r.place);
    [c.code, c.first, c.second, r.differed, r.failed]
}

// The first record that is another; as many as there are where none is.
fn first_changed(a: &Records, b: &Records) -> usize {
    a.iter()
        .zip(b)
        .position(|(x, y)| words_of(x) != words_of(y))
        .unwrap_or(bounded_orders::RECORDS)
}

fn say_ring(system: &System, l: Metered) {
    let ring = l.ring;
    let slot = ring.slots[0];
    let numbers = [ring.head.0, ring.tail.0, l.meter, slot.stamp.0, slot.value];
    text_output::say(system, " h=# t=# m=# slot 0=(#,#)\n", &numbers);
}

// The line of one step: how many records are lent, the entry, the refusal, the first record that changed, the ring and its first slot.
fn shown(
    system: &System,
    l: Metered,
    records: Records,
    count: usize,
    first: u64,
    second: u64,
) -> Stepped {
    let s = bounded_lent_by_value::lend(l, records, count, first, second);
    let changed = first_changed(&records, &s.records);
    let numbers = [count as u64, first, second, s.refusal, changed as u64];
    text_output::say(system, "lent # entry # #: # changed #", &numbers);
    say_ring(system, s.ring);
    s
}

// Records 0 to 3, of which 1 is on its way; then fewer, more and none.
fn others(system: &System, s: Stepped) {
    for (count, first, second) in [
        (1, 24, 0),
        (1, 0, 7),
        (64, 1010, 0),
        (65, 1024, 0),
        (0, 0, 7),
    ] {
        shown(system, s.ring, s.records, count, first, second);
    }
}

// Record 3 is another's: busy with a word whose index is not below capacity, with a marked one, and with one that fits; idle with a count above the meter, and with one that is not.
fn strange(system: &System, s: Stepped) {
    let busy = |word| Place::P2(Kind::Push, Stamp(word), 9);
    let idle = Place::Idle(Answer::Nothing);
    for (place, differed, count) in [
        (busy(2), 0, 4),
        (busy(2), 0, 3),
        (busy(4), 0, 4),
        (busy(1), 0, 4),
        (idle, 2, 4),
        (idle, 1, 4),
    ] {
        let mut records = s.records;
        records[3] = Worker {
            place,
            differed,
            failed: 0,
        };
        shown(system, s.ring, records, count, 24, 0);
    }
}

fn acted(system: &System, s: Stepped) -> Stepped {
    shown(system, s.ring, s.records, 4, 24, 0)
}

// Record 1 goes on to the end of its push.
fn pushed(system: &System, loaded: Stepped) {
    let mut s = loaded;
    for _ in 0..4 {
        s = acted(system, s);
    }
}

fn main(rt: HostRuntime) {
    let system = text_system::of(rt);
    let made = bounded_orders::make(4, 2, 1);
    let records = [bounded_orders::idle(); bounded_orders::RECORDS];
    let begun = shown(&system, made.ring, records, 4, 16, 5);
    let loaded = acted(&system, begun);
    others(&system, loaded);
    strange(&system, loaded);
    pushed(&system, loaded);
}
