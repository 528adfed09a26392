// `run` of the unbounded queue on words in memory, for bench/run to link: a machine is made, a schedule is run on it, and what came of it is told in numbers.
#![tactic(auto)]

use unbounded_machine::Ran;

// place, head, tail, meter
fn tell(told: &mut [u64; 4], r: Ran) {
    let m = r.machine;
    *told = [r.place, m.ends.head.0, m.ends.tail.0, m.meter];
}

// The refusal, or 0.
#[unsafe(no_mangle)]
pub extern "C" fn bench_unbounded(workers: u64, schedule: &[u64], told: &mut [u64; 4]) -> u64 {
    let did = unbounded::make(workers);
    if did.refusal != 0 {
        return did.refusal;
    }
    let r = unbounded::run(did.machine, schedule);
    tell(told, r);
    r.refusal
}
