// The face of sixteen bits that a small controller links (hosts/): head, tail and stamps are sixteen-bit numbers in its memory, and the slices are as long as the capacity asks.
// `specs/SixteenHost.antt` says what each function answers; a refused call changes no word.
#![tactic(auto)]

ghost use Rattle.std.specs.Prelude.{◌≡◌, true, false, ◌≤◌, ◌<◌, length};
ghost use Rattle.bounded_words.specs.Limits.{slots_most, editions_most};
ghost use Rattle.bounded_machine.specs.Machine.{ring_of_parts};
ghost use Rattle.bounded_machine.specs.Broken.{ring_fits};
ghost use Rattle.bounded_machine.specs.Contents.{item_on};
ghost use Rattle.bounded_orders.specs.Orders.{filled, contents_by};
ghost use Rattle.bounded_sixteen_rows.specs.SixteenRows.{shorts, slots_in, after};
ghost use Rattle.bounded_sixteen_host.specs.SixteenHost.{reply_of, broken_refusal, numbers, fresh_head, make_shorts, step_shorts, ended, run_shorts, capacity_shorts, listed, contents_shorts};

use bounded_places::Ends;
use bounded_words::Fixed;

// The number of a refusal, 0 where there is none; and what the call is asked for: an entry's place, a count, a capacity.
#[repr(C)]
#[derive(Clone, Copy)]
pub struct Reply {
    pub refusal: u64,
    pub number: u64,
}

// ---- making

fn put_fresh(head: &mut [u16], capacity: u64, edition: u64)
    requires head_len { length head.old ≡ 7 }
    requires capacity_le_slots_most { capacity ≤ slots_most }
    requires edition_le_editions_most { edition ≤ editions_most }
    ensures { head.new ≡ fresh_head capacity edition }
{
    let mark = bounded_words::mark_of(capacity);
    head[0] = mark as u16;
    head[1] = (2 * mark) as u16;
    head[2] = capacity as u16;
    head[3] = edition as u16;
    head[4] = 0;
    head[5] = 0;
    head[6] = bounded_sixteen_rows::LAYOUT;
}

fn put_stamps(stamps: &mut [u16])
    requires { length stamps.old ≤ slots_most }
    ensures { stamps.new ≡ numbers (length stamps.old) 0 }
{
    let n = stamps.len();
    for i in 0..n {
        stamps[i] = i as u16;
    }
}

// A fresh ring and all records idle; refusal 1, 2 or 18, or 6 for slices of other lengths than the capacity asks.
#[unsafe(no_mangle)]
pub extern "C" fn fern_ring16_make(
    head: &mut [u16],
    meter: &mut u64,
    stamps: &mut [u16],
    values: &mut [u64],
    records: &mut [u64],
    capacity: u64,
    edition: u64,
) -> u64
    ensures { after result (shorts head.new meter.new stamps.new values.new records.new) ≡ make_shorts (shorts head.old meter.old stamps.old values.old records.old) capacity edition }
{
    let count = records.len() / bounded_sixteen_rows::RECORD;
    if !bounded_sixteen_rows::shaped_for(capacity, head, *meter, stamps, values, records) {
        return 6;
    }
    let refusal = bounded_orders::make_refusal(
        bounded_orders::RECORDS as u64,
        capacity,
        count as u64,
        edition,
    );
    if refusal != 0 {
        return refusal;
    }
    put_fresh(head, capacity, edition);
    put_stamps(stamps);
    bounded_slices::put_zeros(values);
    bounded_slices::put_zeros(records);
    *meter = 0;
    0
}

// ---- entries

// The entry of two words: the number of its refusal, 0 where it was not refused.
#[unsafe(no_mangle)]
pub extern "C" fn fern_ring16_step(
    head: &mut [u16],
    meter: &mut u64,
    stamps: &mut [u16],
    values: &mut [u64],
    records: &mut [u64],
    first: u64,
    second: u64,
) -> u64
    ensures { after result (shorts head.new meter.new stamps.new values.new records.new) ≡ step_shorts (shorts head.old meter.old stamps.old values.old records.old) first second }
{
    if bounded_sixteen_rows::broken(head, *meter, stamps, values, records) {
        return 6;
    }
    bounded_sixteen_rows::turn(head, meter, stamps, values, records, first, second)
}

// A schedule, entry by entry, to its end or to the first refusal; 6 is judged once, since no entry breaks what is not broken.
#[unsafe(no_mangle)]
pub extern "C" fn fern_ring16_run(
    head: &mut [u16],
    meter: &mut u64,
    stamps: &mut [u16],
    values: &mut [u64],
    records: &mut [u64],
    schedule: &[u64],
) -> Reply
    ensures { ended result.refusal result.number (shorts head.new meter.new stamps.new values.new records.new) ≡ run_shorts (shorts head.old meter.old stamps.old values.old records.old) schedule.now }
{
    if bounded_sixteen_rows::broken(head, *meter, stamps, values, records) {
        return Reply {
            refusal: 6,
            number: 0,
        };
    }
    let whole = bounded_orders::judged(false, schedule);
    let n = bounded_orders::entries_of(whole);
    for i in 0..n {
        let refusal = bounded_sixteen_rows::turn(
            head,
            meter,
            stamps,
            values,
            records,
            schedule[2 * i],
            schedule[2 * i + 1],
        );
        if refusal != 0 {
            return Reply {
                refusal,
                number: i as u64,
            };
        }
    }
    Reply {
        refusal: whole.refusal,
        number: whole.place,
    }
}

// ---- looking

// 6 where every call would be refused for what is lent, else 0.
#[unsafe(no_mangle)]
pub extern "C" fn fern_ring16_broken(
    head: &[u16],
    meter: u64,
    stamps: &[u16],
    values: &[u64],
    records: &[u64],
) -> u64
    ensures { result ≡ broken_refusal (shorts head.now meter stamps.now values.now records.now) }
{
    if bounded_sixteen_rows::broken(head, meter, stamps, values, records) {
        6
    } else {
        0
    }
}

#[unsafe(no_mangle)]
pub extern "C" fn fern_ring16_capacity(
    head: &[u16],
    meter: u64,
    stamps: &[u16],
    values: &[u64],
    records: &[u64],
) -> Reply
    ensures { result ≡ capacity_shorts (shorts head.now meter stamps.now values.now records.now) }
{
    if bounded_sixteen_rows::broken(head, meter, stamps, values, records) {
        return Reply {
            refusal: 6,
            number: 0,
        };
    }
    let f = bounded_sixteen_rows::fixed_in(head);
    Reply {
        refusal: 0,
        number: f.capacity,
    }
}

fn reply_of(t: Result<u64, u64>) -> Reply
    ensures { result ≡ reply_of t }
{
    match t {
        Ok(n) => Reply {
            refusal: 0,
            number: n,
        },
        Err(k) => Reply {
            refusal: k,
            number: 0,
        },
    }
}

// The k-th item from index(head), wrapping at capacity.
fn item_at(f: Fixed, e: Ends, stamps: &[u16], values: &[u64], k: u64) -> u64
    requires e_value { ring_fits f e ≡ true }
    requires stamps_len { length stamps.now ≡ f.capacity }
    requires values_len { length values.now ≡ f.capacity }
    requires k_lt_capacity { k < f.capacity }
    ensures { result ≡ item_on (ring_of_parts f e (slots_in stamps.now values.now)) k }
{
    let at = bounded_words::index(f, e.head) + k;
    if at < f.capacity {
        return bounded_sixteen_rows::slot_at(stamps, values, at as usize).value;
    }
    bounded_sixteen_rows::slot_at(stamps, values, (at - f.capacity) as usize).value
}

// The items between the ends of a ring that fits, written at the buffer's start.
fn list(
    idle: bool,
    f: Fixed,
    e: Ends,
    stamps: &[u16],
    values: &[u64],
    buffer: &mut [u64],
) -> Result<u64, u64>
    requires e_value { ring_fits f e ≡ true }
    requires stamps_len { length stamps.now ≡ f.capacity }
    requires values_len { length values.now ≡ f.capacity }
    ensures { filled result buffer.new ≡ contents_by false idle (ring_of_parts f e (slots_in stamps.now values.now)) buffer.old }
{
    if !idle {
        return Err(4);
    }
    let n = bounded_acts::count(f, e.tail, e.head);
    if buffer.len() < (n as usize) {
        return Err(10);
    }
    for k in 0..n {
        buffer[k as usize] = item_at(f, e, stamps, values, k);
    }
    Ok(n)
}

// The items as `Drop` would meet them, written at the buffer's start; how many. Nothing is removed.
#[unsafe(no_mangle)]
pub extern "C" fn fern_ring16_contents(
    head: &[u16],
    meter: u64,
    stamps: &[u16],
    values: &[u64],
    records: &[u64],
    buffer: &mut [u64],
) -> Reply
    ensures { listed result buffer.new ≡ contents_shorts (shorts head.now meter stamps.now values.now records.now) buffer.old }
{
    if bounded_sixteen_rows::broken(head, meter, stamps, values, records) {
        return Reply {
            refusal: 6,
            number: 0,
        };
    }
    let f = bounded_sixteen_rows::fixed_in(head);
    let e = bounded_sixteen_rows::ends_in(head);
    let idle = bounded_slices::records_fit(records, f, meter, false);
    reply_of(list(idle, f, e, stamps, values, buffer))
}
