// The face whose records are lent, for bench/run to link: a ring is made with so many records, a schedule is run on them, and what came of it is told in numbers.
#![tactic(auto)]

use bounded_orders::Metered;
use bounded_places::Worker;

// place, head, tail, meter
fn tell(told: &mut [u64; 4], place: u64, l: Metered) {
    *told = [place, l.ring.head.0, l.ring.tail.0, l.meter];
}

fn idlers() -> [Worker; bounded_orders::RECORDS] {
    [bounded_orders::idle(); bounded_orders::RECORDS]
}

// The refusal, or 0.
#[unsafe(no_mangle)]
pub extern "C" fn bench_lent(
    capacity: u64,
    records: u64,
    edition: u64,
    schedule: &[u64],
    told: &mut [u64; 4],
) -> u64 {
    let made = bounded_orders::make(records as usize, capacity, edition);
    if made.refusal != 0 {
        return made.refusal;
    }
    let passed = bounded_lent_by_value::lend_all(made.ring, idlers(), records as usize, schedule);
    let report = passed.report;
    tell(told, report.place, passed.ring);
    report.refusal
}
