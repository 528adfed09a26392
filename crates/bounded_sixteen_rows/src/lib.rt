// A ring of sixteen bits and its records as words in the host's memory, each as wide as it need be and the slices as long as the capacity asks: the ends, one slot and one entry
// among them, and whether they are broken. The records are the host's of 64 bits (crates bounded_rows, bounded_slices).
#![tactic(auto)]

ghost use Rattle.std.specs.Prelude.{◌≡◌, true, false, ◌<◌, length, get_or, set};
ghost use Rattle.bounded_words.specs.Limits.{narrow};
ghost use Rattle.bounded_machine.specs.Machine.{slot};
ghost use Rattle.bounded_lent.specs.Lent.{broken_lent};
ghost use Rattle.bounded_rows.specs.Rows.{fixed_in, ends_in, records_in};
ghost use Rattle.bounded_sixteen_rows.specs.SixteenRows.{shorts, with_ends, metered_in, shaped_for, stand, broken_shorts, after, after_of, turn_shorts};

use bounded_places::{Ends, Slot};
use bounded_words::{Fixed, Stamp, Width};

// How many words there are for the ring but for its meter and slots, and for a record.
pub const HEAD: usize = 7;

pub const RECORD: usize = 5;

// The number of this layout, in the last word of the head.
pub const LAYOUT: u16 = 16;

fn wide(x: u16) -> u64
    ensures same { result ≡ x }
    ensures short { result < narrow }
{
    u64::from(x)
}

pub fn fixed_in(head: &[u16]) -> Fixed
    requires { length head.now ≡ 7 }
    ensures { result ≡ fixed_in head.now }
{
    Fixed {
        mark: wide(head[0]),
        lap: wide(head[1]),
        capacity: wide(head[2]),
        edition: wide(head[3]),
    }
}

pub fn ends_in(head: &[u16]) -> Ends
    requires { length head.now ≡ 7 }
    ensures same { result ≡ ends_in head.now }
    ensures head { result.head.0 < narrow }
    ensures tail { result.tail.0 < narrow }
{
    Ends {
        head: Stamp(wide(head[4])),
        tail: Stamp(wide(head[5])),
    }
}

fn put_ends(head: &mut [u16], e: Ends)
    requires head_len { length head.old ≡ 7 }
    requires head_lt_narrow { e.head.0 < narrow }
    requires tail_lt_narrow { e.tail.0 < narrow }
    ensures { head.new ≡ with_ends head.old e }
{
    head[4] = e.head.0 as u16;
    head[5] = e.tail.0 as u16;
}

pub fn slot_at(stamps: &[u16], values: &[u64], k: usize) -> Slot
    requires k_in_bounds { k < length stamps.now }
    requires k_in_bounds_2 { k < length values.now }
    ensures same { result ≡ slot (get_or stamps.now k 0) (get_or values.now k 0) }
    ensures short { result.stamp.0 < narrow }
{
    Slot {
        stamp: Stamp(wide(stamps[k])),
        value: values[k],
    }
}

fn put_slot(stamps: &mut [u16], values: &mut [u64], k: usize, s: Slot)
    requires k_in_bounds { k < length stamps.old }
    requires k_in_bounds_2 { k < length values.old }
    requires stamp_lt_narrow { s.stamp.0 < narrow }
    ensures stamps { stamps.new ≡ set stamps.old k s.stamp.0 }
    ensures values { values.new ≡ set values.old k s.value }
{
    stamps[k] = s.stamp.0 as u16;
    values[k] = s.value;
}

pub fn shaped_for(
    capacity: u64,
    head: &[u16],
    meter: u64,
    stamps: &[u16],
    values: &[u64],
    records: &[u64],
) -> bool
    ensures { result ≡ shaped_for capacity (shorts head.now meter stamps.now values.now records.now) }
{
    if head.len() != HEAD {
        return false;
    }
    if stamps.len() as u64 != capacity {
        return false;
    }
    if values.len() as u64 != capacity {
        return false;
    }
    records.len() % RECORD == 0
}

pub fn broken(head: &[u16], meter: u64, stamps: &[u16], values: &[u64], records: &[u64]) -> bool
    ensures { result ≡ broken_shorts (shorts head.now meter stamps.now values.now records.now) }
{
    if head.len() != HEAD {
        return true;
    }
    let f = fixed_in(head);
    let e = ends_in(head);
    if !shaped_for(f.capacity, head, meter, stamps, values, records) {
        return true;
    }
    if head[6] != LAYOUT {
        return true;
    }
    if !bounded_orders::ring_fits(f, e, records.len() / RECORD) {
        return true;
    }
    !bounded_slices::records_fit(records, f, meter, true)
}

// One entry, on words that stand for a ring and records that are not broken; nor are they after it.
pub fn turn(
    head: &mut [u16],
    meter: &mut u64,
    stamps: &mut [u16],
    values: &mut [u64],
    records: &mut [u64],
    first: u64,
    second: u64,
) -> u64
    requires records_value { broken_lent (metered_in (shorts head.old meter.old stamps.old values.old records.old)) (records_in records.old) ≡ false }
    requires records_value_2 { stand (shorts head.old meter.old stamps.old values.old records.old) ≡ true }
    ensures records_after { after result (shorts head.new meter.new stamps.new values.new records.new) ≡ after_of (turn_shorts (shorts head.old meter.old stamps.old values.old records.old) first second) }
    ensures records_after_2 { broken_lent (metered_in (shorts head.new meter.new stamps.new values.new records.new)) (records_in records.new) ≡ false }
    ensures records_after_3 { stand (shorts head.new meter.new stamps.new values.new records.new) ≡ true }
{
    let count = records.len() / RECORD;
    let w = bounded_step_record::worker_of(first, count);
    let r = bounded_rows::record_at(records, w);
    let f = fixed_in(head);
    let e = ends_in(head);
    let k = bounded_step_record::slot_of(f, r);
    let s = slot_at(stamps, values, k);
    let t = bounded_step_record::turn_on(Width::Sixteen, f, e, s, r, *meter, count, first, second);
    put_ends(head, t.ends);
    put_slot(stamps, values, k, t.slot);
    bounded_rows::put_record(records, w, t.worker);
    *meter = t.meter;
    t.refusal
}
