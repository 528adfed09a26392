// The three slices that a host lends, each as a whole: how long they are, whether they stand for a ring and records that are not broken, and a ring stored there.
#![tactic(auto)]

ghost use Rattle.std.specs.Prelude.{◌≡◌, true, false, cond, ◌+◌, ◌*◌, ◌%◌, ◌<◌, ltb, length, replicate};
ghost use Rattle.bounded_words.specs.Limits.{slots_most};
ghost use Rattle.bounded_words.specs.Words.{Fair};
ghost use Rattle.bounded_codes.specs.Codes.{within, stands_for};
ghost use Rattle.bounded_machine.specs.Broken.{record_fits};
ghost use Rattle.bounded_lent.specs.Lent.{each_fits};
ghost use Rattle.bounded_rows.specs.Rows.{words, head_of, slots_of, slots_in, record_at, placed_at, records_in, shaped, placed};
ghost use Rattle.bounded_slices.specs.Slices.{fitting, with_fixed, broken_words};

use bounded_orders::Metered;
use bounded_places::{Ends, Slot};
use bounded_words::{Fixed, Stamp};

// How many words there are for the ring but for its slots, for the slots and for a record.
pub const HEAD: usize = 8;

pub const SLOTS: usize = 2048;

pub const RECORD: usize = 5;

// The number of this layout, in the last word of the head.
pub const LAYOUT: u64 = 1;

pub fn shaped(head: &[u64], slots: &[u64], records: &[u64]) -> bool
    ensures { result ≡ shaped (words head.now slots.now records.now) }
{
    if head.len() != HEAD {
        return false;
    }
    if slots.len() != SLOTS {
        return false;
    }
    records.len() % RECORD == 0
}

// Of a code from 15 to 32, which all hold a loaded word first. A second word that is not 0 is a loaded one in Len3 (21) and any number
// from 22 on; the first may be marked in Len2 (20) and Len3.
fn end_fits(f: Fixed, code: u64, first: u64, second: u64) -> bool
    requires fair { Fair f }
    requires code_value { within code 15 33 ≡ true }
    ensures { result ≡ fitting f code first second }
{
    if !bounded_places::inside_of(f, Stamp(first)) {
        return false;
    }
    if !bounded_codes::may_be(second, 22 <= code) {
        return code == 21 && bounded_places::inside_of(f, Stamp(second));
    }
    !bounded_words::marked(f, Stamp(first)) || bounded_codes::within(code, 20, 22)
}

// Of any other code: no second word, and no loaded word.
fn other_stands(code: u64, first: u64, second: u64) -> bool
    requires { within code 15 33 ≡ false }
    ensures { result ≡ stands_for code first second }
{
    if second != 0 {
        return false;
    }
    if !bounded_codes::may_be(first, bounded_codes::within(code, 6, 15)) {
        return false;
    }
    code < 39
}

fn allowed(code: u64, counted: bool) -> bool
    ensures { result ≡ cond (ltb code 11) true counted }
{
    code < 11 || counted
}

// Whether the i-th record stands for a place and fits the ring, by its words; as `bounded_machine::record_fits` of the record that they
// stand for. Few tests of a record are such as the next record answers otherwise, so that the processor foretells them.
fn fits_at(records: &[u64], i: usize, f: Fixed, meter: u64, counted: bool) -> bool
    requires fair { Fair f }
    requires i_in_bounds { i * 5 + 4 < length records.now }
    ensures { result ≡ cond (placed_at records.now i) (record_fits f meter (record_at records.now i) counted) false }
{
    let at = i * RECORD;
    let code = records[at];
    if meter < records[at + 3] {
        return false;
    }
    if meter < records[at + 4] {
        return false;
    }
    if !allowed(code, counted) {
        return false;
    }
    if bounded_codes::within(code, 15, 33) {
        return end_fits(f, code, records[at + 1], records[at + 2]);
    }
    other_stands(code, records[at + 1], records[at + 2])
}

// Whether every record stands for a place and fits the ring, as one within the count does or as one past it, which has to be idle.
pub fn records_fit(records: &[u64], f: Fixed, meter: u64, counted: bool) -> bool
    requires fair { Fair f }
    requires records_len { length records.now % 5 ≡ 0 }
    ensures { result ≡ cond (placed records.now) (each_fits f meter counted (records_in records.now)) false }
{
    let n = records.len() / RECORD;
    for i in 0..n {
        if !fits_at(records, i, f, meter, counted) {
            return false;
        }
    }
    true
}

pub fn broken(head: &[u64], slots: &[u64], records: &[u64]) -> bool
    ensures { result ≡ broken_words (words head.now slots.now records.now) }
{
    if !shaped(head, slots, records) {
        return true;
    }
    if head[7] != LAYOUT {
        return true;
    }
    let f = bounded_rows::fixed_in(head);
    let e = bounded_rows::ends_in(head);
    if !bounded_orders::ring_fits(f, e, records.len() / RECORD) {
        return true;
    }
    !records_fit(records, f, head[6], true)
}

fn put_fixed(head: &mut [u64], f: Fixed)
    requires { length head.old ≡ 8 }
    ensures { head.new ≡ with_fixed head.old f }
{
    head[0] = f.mark;
    head[1] = f.lap;
    head[2] = f.capacity;
    head[3] = f.edition;
}

pub fn put_ring(head: &mut [u64], l: Metered)
    requires { length head.old ≡ 8 }
    ensures { head.new ≡ head_of l }
{
    let ring = l.ring;
    let f = ring.fixed();
    let e = ring.ends();
    put_fixed(head, f);
    bounded_rows::put_head(head, e, l.meter);
    head[7] = LAYOUT;
}

pub fn put_slots(slots: &mut [u64], all: [Slot; bounded_words::SLOTS])
    requires { length slots.old ≡ slots_most * 2 }
    ensures { slots.new ≡ slots_of all }
{
    for i in 0..bounded_words::SLOTS {
        bounded_rows::put_slot(slots, i, all[i]);
    }
}

pub fn put_zeros(records: &mut [u64])
    ensures { records.new ≡ replicate (length records.old) 0 }
{
    records.fill(0);
}

pub fn slots_in(slots: &[u64]) -> [Slot; bounded_words::SLOTS]
    requires { length slots.now ≡ slots_most * 2 }
    ensures { result ≡ slots_in slots.now }
{
    let mut all = [Slot {
        stamp: Stamp(0),
        value: 0,
    }; bounded_words::SLOTS];
    for i in 0..bounded_words::SLOTS {
        all[i] = bounded_rows::slot_at(slots, i);
    }
    all
}
