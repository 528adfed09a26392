// `run` of the one-slot queue on words in memory, for bench/run to link: a machine is made, a schedule is run on it, and what came of it is told in numbers.
#![tactic(auto)]

use single_machine::Ran;

// place, state, value, meter
fn tell(told: &mut [u64; 4], r: Ran) {
    let m = r.machine;
    *told = [r.place, m.single.state.0, m.single.value, m.meter];
}

// The refusal, or 0.
#[unsafe(no_mangle)]
pub extern "C" fn bench_single(workers: u64, schedule: &[u64], told: &mut [u64; 4]) -> u64 {
    let did = single::make(workers);
    if did.refusal != 0 {
        return did.refusal;
    }
    let r = single::run(did.machine, schedule);
    tell(told, r);
    r.refusal
}
