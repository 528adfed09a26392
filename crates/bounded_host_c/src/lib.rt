// The functions of crate bounded_host as C calls them: a static library over it, since a crate is built as one or the other. Each says what its function says.
#![tactic(auto)]

ghost use Rattle.std.specs.Prelude.{◌≡◌};
ghost use Rattle.bounded_rows.specs.Rows.{words, after};
ghost use Rattle.bounded_host.specs.Host.{broken_refusal, make_words, ended, run_words, capacity_words, listed, contents_words};

use bounded_host::Reply;

// A fresh ring and all records idle; refusal 1, 2 or 18, or 6 for slices of other lengths.
#[unsafe(no_mangle)]
pub extern "C" fn fern_ring_make(
    head: &mut [u64],
    slots: &mut [u64],
    records: &mut [u64],
    capacity: u64,
    edition: u64,
) -> u64
    ensures { after result (words head.new slots.new records.new) ≡ make_words (words head.old slots.old records.old) capacity edition }
{
    bounded_host::fern_ring_make(head, slots, records, capacity, edition)
}

// A schedule, entry by entry, to its end or to the first refusal; 6 is judged once, since no entry breaks what is not broken.
#[unsafe(no_mangle)]
pub extern "C" fn fern_ring_run(
    head: &mut [u64],
    slots: &mut [u64],
    records: &mut [u64],
    schedule: &[u64],
) -> Reply
    ensures { ended result (words head.new slots.new records.new) ≡ run_words (words head.old slots.old records.old) schedule.now }
{
    bounded_host::fern_ring_run(head, slots, records, schedule)
}

// 6 where every call would be refused for what is lent, else 0.
#[unsafe(no_mangle)]
pub extern "C" fn fern_ring_broken(head: &[u64], slots: &[u64], records: &[u64]) -> u64
    ensures { result ≡ broken_refusal (words head.now slots.now records.now) }
{
    bounded_host::fern_ring_broken(head, slots, records)
}

#[unsafe(no_mangle)]
pub extern "C" fn fern_ring_capacity(head: &[u64], slots: &[u64], records: &[u64]) -> Reply
    ensures { result ≡ capacity_words (words head.now slots.now records.now) }
{
    bounded_host::fern_ring_capacity(head, slots, records)
}

// The items as `Drop` would meet them, written at the buffer's start; how many. Nothing is removed.
#[unsafe(no_mangle)]
pub extern "C" fn fern_ring_contents(
    head: &[u64],
    slots: &[u64],
    records: &[u64],
    buffer: &mut [u64],
) -> Reply
    ensures { listed result buffer.new ≡ contents_words (words head.now slots.now records.now) buffer.old }
{
    bounded_host::fern_ring_contents(head, slots, records, buffer)
}
