// The functions of crate bounded_sixteen_host as C calls them: a static library over it, since a crate is built as one or the other. Each says what its function says.
#![tactic(auto)]

ghost use Rattle.std.specs.Prelude.{◌≡◌};
ghost use Rattle.bounded_sixteen_rows.specs.SixteenRows.{shorts, after};
ghost use Rattle.bounded_sixteen_host.specs.SixteenHost.{broken_refusal, make_shorts, step_shorts, ended, run_shorts, capacity_shorts, listed, contents_shorts};

use bounded_sixteen_host::Reply;

// A fresh ring and all records idle; refusal 1, 2 or 18, or 6 for slices of other lengths than the capacity asks.
#[unsafe(no_mangle)]
pub extern "C" fn fern_ring16_make(
    head: &mut [u16],
    meter: &mut u64,
    stamps: &mut [u16],
    values: &mut [u64],
    records: &mut [u64],
    capacity: u64,
    edition: u64,
) -> u64
    ensures { after result (shorts head.new meter.new stamps.new values.new records.new) ≡ make_shorts (shorts head.old meter.old stamps.old values.old records.old) capacity edition }
{
    bounded_sixteen_host::fern_ring16_make(head, meter, stamps, values, records, capacity, edition)
}

// The entry of two words: the number of its refusal, 0 where it was not refused.
#[unsafe(no_mangle)]
pub extern "C" fn fern_ring16_step(
    head: &mut [u16],
    meter: &mut u64,
    stamps: &mut [u16],
    values: &mut [u64],
    records: &mut [u64],
    first: u64,
    second: u64,
) -> u64
    ensures { after result (shorts head.new meter.new stamps.new values.new records.new) ≡ step_shorts (shorts head.old meter.old stamps.old values.old records.old) first second }
{
    bounded_sixteen_host::fern_ring16_step(head, meter, stamps, values, records, first, second)
}

// A schedule, entry by entry, to its end or to the first refusal; 6 is judged once, since no entry breaks what is not broken.
#[unsafe(no_mangle)]
pub extern "C" fn fern_ring16_run(
    head: &mut [u16],
    meter: &mut u64,
    stamps: &mut [u16],
    values: &mut [u64],
    records: &mut [u64],
    schedule: &[u64],
) -> Reply
    ensures { ended result.refusal result.number (shorts head.new meter.new stamps.new values.new records.new) ≡ run_shorts (shorts head.old meter.old stamps.old values.old records.old) schedule.now }
{
    bounded_sixteen_host::fern_ring16_run(head, meter, stamps, values, records, schedule)
}

// 6 where every call would be refused for what is lent, else 0.
#[unsafe(no_mangle)]
pub extern "C" fn fern_ring16_broken(
    head: &[u16],
    meter: u64,
    stamps: &[u16],
    values: &[u64],
    records: &[u64],
) -> u64
    ensures { result ≡ broken_refusal (shorts head.now meter stamps.now values.now records.now) }
{
    bounded_sixteen_host::fern_ring16_broken(head, meter, stamps, values, records)
}

#[unsafe(no_mangle)]
pub extern "C" fn fern_ring16_capacity(
    head: &[u16],
    meter: u64,
    stamps: &[u16],
    values: &[u64],
    records: &[u64],
) -> Reply
    ensures { result ≡ capacity_shorts (shorts head.now meter stamps.now values.now records.now) }
{
    bounded_sixteen_host::fern_ring16_capacity(head, meter, stamps, values, records)
}

// The items as `Drop` would meet them, written at the buffer's start; how many. Nothing is removed.
#[unsafe(no_mangle)]
pub extern "C" fn fern_ring16_contents(
    head: &[u16],
    meter: u64,
    stamps: &[u16],
    values: &[u64],
    records: &[u64],
    buffer: &mut [u64],
) -> Reply
    ensures { listed result buffer.new ≡ contents_shorts (shorts head.now meter stamps.now values.now records.now) buffer.old }
{
    bounded_sixteen_host::fern_ring16_contents(head, meter, stamps, values, records, buffer)
}
