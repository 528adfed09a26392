// The face that a host in C or Rust links (hosts/): ring and records are words in its memory, lent for each call as three slices. `specs/Host.antt` says what each function answers;
// a refused call changes no word. One entry by itself is crate bounded_host_step: the compiler puts an entry into the one place that asks for it, and there is one in
// each of the two archives.
#![tactic(auto)]

ghost use Rattle.std.specs.Prelude.{◌≡◌};
ghost use Rattle.bounded_rows.specs.Rows.{words, after};
ghost use Rattle.bounded_host.specs.Host.{reply_of, broken_refusal, make_words, ended, run_words, capacity_words, listed, contents_words};

use bounded_machine::Ring;
use bounded_words::Width;

// The number of a refusal, 0 where there is none; and what the call is asked for: an entry's place, a count, a capacity.
#[repr(C)]
#[derive(Clone, Copy)]
pub struct Reply {
    pub refusal: u64,
    pub number: u64,
}

// A fresh ring and all records idle; refusal 1, 2 or 18, or 6 for slices of other lengths.
#[unsafe(no_mangle)]
pub extern "C" fn fern_ring_make(
    head: &mut [u64],
    slots: &mut [u64],
    records: &mut [u64],
    capacity: u64,
    edition: u64,
) -> u64
    ensures { after result (words head.new slots.new records.new) ≡ make_words (words head.old slots.old records.old) capacity edition }
{
    if !bounded_slices::shaped(head, slots, records) {
        return 6;
    }
    let made = bounded_orders::make(records.len() / bounded_slices::RECORD, capacity, edition);
    if made.refusal != 0 {
        return made.refusal;
    }
    let l = made.ring;
    let ring = l.ring;
    let all = ring.slots;
    bounded_slices::put_ring(head, l);
    bounded_slices::put_slots(slots, all);
    bounded_slices::put_zeros(records);
    0
}

// ---- entries

// A schedule, entry by entry, to its end or to the first refusal; 6 is judged once, since no entry breaks what is not broken.
#[unsafe(no_mangle)]
pub extern "C" fn fern_ring_run(
    head: &mut [u64],
    slots: &mut [u64],
    records: &mut [u64],
    schedule: &[u64],
) -> Reply
    ensures { ended result (words head.new slots.new records.new) ≡ run_words (words head.old slots.old records.old) schedule.now }
{
    if bounded_slices::broken(head, slots, records) {
        return Reply {
            refusal: 6,
            number: 0,
        };
    }
    let whole = bounded_orders::judged(false, schedule);
    let n = bounded_orders::entries_of(whole);
    for i in 0..n {
        let refusal = bounded_rows::turn(
            Width::SixtyFour,
            head,
            slots,
            records,
            schedule[2 * i],
            schedule[2 * i + 1],
        );
        if refusal != 0 {
            return Reply {
                refusal,
                number: i as u64,
            };
        }
    }
    Reply {
        refusal: whole.refusal,
        number: whole.place,
    }
}

// ---- looking

// 6 where every call would be refused for what is lent, else 0.
#[unsafe(no_mangle)]
pub extern "C" fn fern_ring_broken(head: &[u64], slots: &[u64], records: &[u64]) -> u64
    ensures { result ≡ broken_refusal (words head.now slots.now records.now) }
{
    if bounded_slices::broken(head, slots, records) {
        6
    } else {
        0
    }
}

fn reply_of(t: Result<u64, u64>) -> Reply
    ensures { result ≡ reply_of t }
{
    match t {
        Ok(n) => Reply {
            refusal: 0,
            number: n,
        },
        Err(k) => Reply {
            refusal: k,
            number: 0,
        },
    }
}

#[unsafe(no_mangle)]
pub extern "C" fn fern_ring_capacity(head: &[u64], slots: &[u64], records: &[u64]) -> Reply
    ensures { result ≡ capacity_words (words head.now slots.now records.now) }
{
    if bounded_slices::broken(head, slots, records) {
        return Reply {
            refusal: 6,
            number: 0,
        };
    }
    Reply {
        refusal: 0,
        number: head[2],
    }
}

// The items as `Drop` would meet them, written at the buffer's start; how many. Nothing is removed.
#[unsafe(no_mangle)]
pub extern "C" fn fern_ring_contents(
    head: &[u64],
    slots: &[u64],
    records: &[u64],
    buffer: &mut [u64],
) -> Reply
    ensures { listed result buffer.new ≡ contents_words (words head.now slots.now records.now) buffer.old }
{
    if bounded_slices::broken(head, slots, records) {
        return Reply {
            refusal: 6,
            number: 0,
        };
    }
    let f = bounded_rows::fixed_in(head);
    let e = bounded_rows::ends_in(head);
    let idle = bounded_slices::records_fit(records, f, head[6], false);
    let all = bounded_slices::slots_in(slots);
    let ring = Ring {
        head: e.head,
        tail: e.tail,
        mark: f.mark,
        lap: f.lap,
        capacity: f.capacity,
        edition: f.edition,
        slots: all,
    };
    reply_of(bounded_orders::contents_on(idle, ring, buffer))
}
