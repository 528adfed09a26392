// A ring and its records as words in the host's memory: eight words, two for each slot, five for each record.
#![tactic(auto)]

ghost use Rattle.std.specs.Prelude.{◌≡◌, true, false, ◌+◌, ◌*◌, ◌<◌, length};
ghost use Rattle.bounded_places.specs.Places.{begin_of};
ghost use Rattle.bounded_codes.specs.Codes.{place_in};
ghost use Rattle.bounded_machine.specs.Turn.{verdict_of, beginner};
ghost use Rattle.bounded_lent.specs.Lent.{broken_lent};
ghost use Rattle.bounded_rows.specs.Rows.{words, fixed_in, ends_in, with_head, record_at, with_record, slot_at, with_slot, records_in, metered_in, stand, Moving, acted_in, after, after_of, turn_with};

use bounded_places::{Ends, Slot, Worker};
use bounded_words::{Fixed, Stamp, Width};
use queue_entries::{Call, Entry, Order, Verdict};

pub fn fixed_in(head: &[u64]) -> Fixed
    requires { length head.now ≡ 8 }
    ensures { result ≡ fixed_in head.now }
{
    Fixed {
        mark: head[0],
        lap: head[1],
        capacity: head[2],
        edition: head[3],
    }
}

pub fn ends_in(head: &[u64]) -> Ends
    requires { length head.now ≡ 8 }
    ensures { result ≡ ends_in head.now }
{
    Ends {
        head: Stamp(head[4]),
        tail: Stamp(head[5]),
    }
}

pub fn put_head(head: &mut [u64], e: Ends, meter: u64)
    requires { length head.old ≡ 8 }
    ensures { head.new ≡ with_head head.old e meter }
{
    head[4] = e.head.0;
    head[5] = e.tail.0;
    head[6] = meter;
}

pub fn record_at(records: &[u64], i: usize) -> Worker
    requires { i * 5 + 4 < length records.now }
    ensures { result ≡ record_at records.now i }
{
    let at = i * 5;
    let place = bounded_codes::place_in(records[at], records[at + 1], records[at + 2]);
    Worker {
        place: place,
        differed: records[at + 3],
        failed: records[at + 4],
    }
}

pub fn put_record(records: &mut [u64], i: usize, r: Worker)
    requires { i * 5 + 4 < length records.old }
    ensures { records.new ≡ with_record records.old i r }
{
    let c = bounded_codes::code_of(r.place);
    let at = i * 5;
    records[at] = c.code;
    records[at + 1] = c.first;
    records[at + 2] = c.second;
    records[at + 3] = r.differed;
    records[at + 4] = r.failed;
}

pub fn slot_at(slots: &[u64], k: usize) -> Slot
    requires { k * 2 + 1 < length slots.now }
    ensures { result ≡ slot_at slots.now k }
{
    let at = k * 2;
    Slot {
        stamp: Stamp(slots[at]),
        value: slots[at + 1],
    }
}

pub fn put_slot(slots: &mut [u64], k: usize, s: Slot)
    requires { k * 2 + 1 < length slots.old }
    ensures { slots.new ≡ with_slot slots.old k s }
{
    let at = k * 2;
    slots[at] = s.stamp.0;
    slots[at + 1] = s.value;
}

fn begin(records: &mut [u64], i: usize, call: Call)
    requires { i * 5 + 4 < length records.old }
    ensures { records.new ≡ with_record records.old i (beginner (begin_of call)) }
{
    let begun = Worker {
        place: bounded_places::first_place(call),
        differed: 0,
        failed: 0,
    };
    put_record(records, i, begun);
}

// The act of the i-th record. Its place is read last and written first, so that the compiler goes by the code once, from the words to the words.
fn act(bits: Width, head: &mut [u64], slots: &mut [u64], records: &mut [u64], i: usize, lose: bool)
    requires { Moving (words head.old slots.old records.old) i }
    ensures { words head.new slots.new records.new ≡ acted_in bits (words head.old slots.old records.old) i lose }
{
    let f = fixed_in(head);
    let e = ends_in(head);
    let meter = head[6];
    let at = i * 5;
    let held = bounded_codes::words_held(records[at], records[at + 1], records[at + 2]);
    let k = bounded_machine::spot(f, held) as usize;
    let s = slot_at(slots, k);
    let r = record_at(records, i);
    let p = r.place;
    let a = bounded_table::act_at(bits, f, e, s, p, lose);
    let ends = a.ends;
    let slot = a.slot;
    let place = a.place;
    let loss = a.loss;
    let after = bounded_machine::record_after(r, place, loss);
    put_head(head, ends, meter + 1);
    put_slot(slots, k, slot);
    put_record(records, i, after);
}

// What becomes of a worker of these words. Whether it stands at a weak exchange is asked last and where one is to fail alone, since
// the processor cannot foretell it.
fn verdict_in(meter: u64, code: u64, first: u64, second: u64, o: Order) -> Verdict
    ensures { result ≡ verdict_of meter (place_in code first second) o }
{
    let busy = bounded_codes::busy_in(code, first, second);
    let verdict = queue_entries::verdict_for(meter, busy, true, o);
    match verdict {
        Verdict::Refuse(number) => Verdict::Refuse(number),
        Verdict::Start(call) => Verdict::Start(call),
        Verdict::Move(lose) => {
            if !lose {
                return Verdict::Move(false);
            }
            if bounded_codes::weak_in(code, first, second) {
                Verdict::Move(true)
            } else {
                Verdict::Refuse(8)
            }
        }
    }
}

// One entry, on words that stand for a ring and records that are not broken; nor are they after it.
pub fn turn(
    bits: Width,
    head: &mut [u64],
    slots: &mut [u64],
    records: &mut [u64],
    first: u64,
    second: u64,
) -> u64
    requires records_value { broken_lent (metered_in (words head.old slots.old records.old)) (records_in records.old) ≡ false }
    requires records_value_2 { stand (words head.old slots.old records.old) ≡ true }
    ensures records_after { after result (words head.new slots.new records.new) ≡ after_of (turn_with bits (metered_in (words head.old slots.old records.old)) (records_in records.old) first second) }
    ensures records_after_2 { broken_lent (metered_in (words head.new slots.new records.new)) (records_in records.new) ≡ false }
    ensures records_after_3 { stand (words head.new slots.new records.new) ≡ true }
{
    let Entry::Asks(worker, order) = queue_entries::entry_of(first, second) else {
        return 9;
    };
    let count = records.len() / 5;
    if count as u64 <= worker {
        return 3;
    }
    let i = worker as usize;
    let at = i * 5;
    let verdict = verdict_in(
        head[6],
        records[at],
        records[at + 1],
        records[at + 2],
        order,
    );
    match verdict {
        Verdict::Refuse(number) => number,
        Verdict::Start(call) => {
            begin(records, i, call);
            0
        }
        Verdict::Move(lose) => {
            act(bits, head, slots, records, i, lose);
            0
        }
    }
}
