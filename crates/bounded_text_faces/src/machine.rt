// A machine as words, and back.
use bounded_machine::{Machine, Ring};
use bounded_places::{Answer, Place, Slot, Worker};
use bounded_text_words::{
    CAPACITY, COUNT, EDITION, HEAD, LAP, MARK, METER, RECORDS, SLOTS, TAIL, WORDS,
};
use bounded_words::Stamp;

fn slots_in(m: [u64; WORDS]) -> [Slot; bounded_words::SLOTS] {
    let mut slots = [Slot {
        stamp: Stamp(0),
        value: 0,
    }; bounded_words::SLOTS];
    for i in 0..bounded_words::SLOTS {
        slots[i] = Slot {
            stamp: Stamp(m[SLOTS + 2 * i]),
            value: m[SLOTS + 2 * i + 1],
        };
    }
    slots
}

fn ring_in(m: [u64; WORDS]) -> Ring {
    Ring {
        head: Stamp(m[HEAD]),
        tail: Stamp(m[TAIL]),
        mark: m[MARK],
        lap: m[LAP],
        capacity: m[CAPACITY],
        edition: m[EDITION],
        slots: slots_in(m),
    }
}

fn worker_in(m: [u64; WORDS], i: u64) -> Worker {
    let code = bounded_text_words::record(m, i, 0);
    let first = bounded_text_words::record(m, i, 1);
    let second = bounded_text_words::record(m, i, 2);
    Worker {
        place: bounded_codes::place_in(code, first, second),
        differed: bounded_text_words::record(m, i, 3),
        failed: bounded_text_words::record(m, i, 4),
    }
}

fn workers_in(m: [u64; WORDS]) -> [Worker; queue_entries::WORKERS] {
    let mut workers = [Worker {
        place: Place::Idle(Answer::Nothing),
        differed: 0,
        failed: 0,
    }; queue_entries::WORKERS];
    for i in 0..queue_entries::WORKERS {
        workers[i] = worker_in(m, i as u64);
    }
    workers
}

pub fn read(m: [u64; WORDS]) -> Machine {
    Machine {
        ring: ring_in(m),
        workers: workers_in(m),
        count: m[COUNT],
        meter: m[METER],
    }
}

// ---- and back

fn put(words: &mut [u64], i: usize, n: u64) {
    if i < words.len() {
        words[i] = n;
    }
}

fn put_slots(words: &mut [u64], slots: [Slot; bounded_words::SLOTS]) {
    for i in 0..bounded_words::SLOTS {
        put(words, SLOTS + 2 * i, slots[i].stamp.0);
        put(words, SLOTS + 2 * i + 1, slots[i].value);
    }
}

fn put_record(words: &mut [u64], i: usize, r: Worker) {
    let c = bounded_codes::code_of(r.place);
    if i < queue_entries::WORKERS {
        let at = RECORDS + 5 * i;
        put(words, at, c.code);
        put(words, at + 1, c.first);
        put(words, at + 2, c.second);
        put(words, at + 3, r.differed);
        put(words, at + 4, r.failed);
    }
}

fn put_records(words: &mut [u64], workers: [Worker; queue_entries::WORKERS]) {
    for i in 0..queue_entries::WORKERS {
        put_record(words, i, workers[i]);
    }
}

pub fn written(m: Machine) -> [u64; WORDS] {
    let mut words = [0; WORDS];
    words[HEAD] = m.ring.head.0;
    words[TAIL] = m.ring.tail.0;
    words[METER] = m.meter;
    words[CAPACITY] = m.ring.capacity;
    words[MARK] = m.ring.mark;
    words[LAP] = m.ring.lap;
    words[COUNT] = m.count;
    words[EDITION] = m.ring.edition;
    put_slots(&mut words, m.ring.slots);
    put_records(&mut words, m.workers);
    words
}
