// `run` on words in memory, for bench/run to link: a machine is made, a schedule is run on it, and what came of it is told in numbers.
#![tactic(auto)]

use bounded_machine::{Machine, Ran};

// place, head, tail, meter
fn tell(told: &mut [u64; 4], r: Ran) {
    let m = r.machine;
    *told = [r.place, m.ring.head.0, m.ring.tail.0, m.meter];
}

// The refusal, or 0.
#[unsafe(no_mangle)]
pub extern "C" fn bench_run(
    capacity: u64,
    workers: u64,
    edition: u64,
    schedule: &[u64],
    told: &mut [u64; 4],
) -> u64 {
    let did = bounded::make(capacity, workers, edition);
    if did.refusal != 0 {
        return did.refusal;
    }
    let r = bounded::run(did.machine, schedule);
    tell(told, r);
    r.refusal
}
