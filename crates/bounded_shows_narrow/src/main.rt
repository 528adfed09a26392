// The face of sixteen bits on the compiled code: words that come round, and what is handed in. The file `stdout` is written from documents 01 and 02.
#![tactic(auto)]

use bounded_sixteen_bits::{Did, Machine, Ran};
use text_system::System;

// A push of 5 and its five acts, a pop and its five.
const ROUND: [u64; 24] = [
    0, 5, 8, 0, 8, 0, 8, 0, 8, 0, 8, 0, 2, 0, 8, 0, 8, 0, 8, 0, 8, 0, 8, 0,
];

// ": REFUSAL at PLACE h=H t=T m=M"
fn tell(system: &System, refusal: u64, place: u64, m: Machine) {
    let head = m.ring.head.0 as u64;
    let tail = m.ring.tail.0 as u64;
    text_output::say(
        system,
        ": # at # h=# t=# m=#\n",
        &[refusal, place, head, tail, m.meter],
    );
}

fn tell_did(system: &System, did: Did) {
    tell(system, did.refusal, 0, did.machine);
}

fn tell_ran(system: &System, r: Ran) {
    tell(system, r.refusal, r.place, r.machine);
}

fn tell_told(system: &System, told: Result<u64, u64>) {
    match told {
        Err(n) => text_output::say(system, ": refused #\n", &[n]),
        Ok(n) => text_output::say(system, ": #\n", &[n]),
    }
}

// 64 rounds, one after another: a schedule costs a widening and a narrowing of the whole ring.
fn many() -> [u64; 1536] {
    let mut list = [0; 1536];
    for (i, word) in list.iter_mut().enumerate() {
        *word = ROUND[i % 24];
    }
    list
}

// So many rounds of worker 0 alone: as many claims at either end.
fn rounds(capacity: u64, edition: u64, n: u64) -> Machine {
    let list = many();
    let mut now = bounded_narrow::make(capacity, 1, edition).machine;
    for _ in 0..n / 64 {
        now = bounded_narrow::run(now, &list).machine;
    }
    let rest = (n % 64) as usize;
    bounded_narrow::run(now, &list[..24 * rest]).machine
}

// The words of the ends after so many rounds, and after one more.
fn come_round(system: &System, capacity: u64, edition: u64, n: u64) {
    let m = rounds(capacity, edition, n);
    text_output::say(
        system,
        "capacity # edition # rounds #",
        &[capacity, edition, n],
    );
    tell_ran(system, bounded_narrow::run(m, &ROUND[..0]));
    text_output::say(system, "one more", &[]);
    tell_ran(system, bounded_narrow::run(m, &ROUND));
}

fn making(system: &System, capacity: u64, workers: u64, edition: u64) {
    text_output::say(system, "make # # #", &[capacity, workers, edition]);
    tell_did(system, bounded_narrow::make(capacity, workers, edition));
}

fn makings(system: &System) {
    making(system, 1, 1, 1);
    making(system, 1024, 16, 2);
    making(system, 1025, 0, 3);
    making(system, 1, 17, 3);
    making(system, 1, 1, 3);
}

fn looks(system: &System, m: Machine) {
    let mut items = [0u64; 2];
    text_output::say(system, "capacity", &[]);
    tell_told(system, bounded_narrow::capacity(m));
    text_output::say(system, "contents", &[]);
    tell_told(system, bounded_narrow::contents(m, &mut items));
    text_output::say(system, "items: # #\n", &items);
    text_output::say(system, "contents in no buffer", &[]);
    tell_told(system, bounded_narrow::contents(m, &mut items[..0]));
}

fn entries(system: &System, m: Machine) {
    text_output::say(system, "begin 6 0", &[]);
    tell_did(system, bounded_narrow::begin(m, 6, 0));
    text_output::say(system, "begin 8 0", &[]);
    tell_did(system, bounded_narrow::begin(m, 8, 0));
    text_output::say(system, "act 8 0", &[]);
    tell_did(system, bounded_narrow::act(m, 8, 0));
    text_output::say(system, "step 16 0", &[]);
    tell_did(system, bounded_narrow::step(m, 16, 0));
}

fn schedules(system: &System, m: Machine) {
    text_output::say(system, "run 6 0 8 0", &[]);
    tell_ran(system, bounded_narrow::run(m, &[6, 0, 8, 0]));
    text_output::say(system, "run 6", &[]);
    tell_ran(system, bounded_narrow::run(m, &[6]));
}

// One item in, and the tail's word begun anew while the head's has not.
fn where_they_begin_anew(system: &System) {
    let m = rounds(1, 1, 16383);
    let pushed = bounded_narrow::run(m, &ROUND[..12]);
    text_output::say(system, "pushed", &[]);
    tell_ran(system, pushed);
    let full = pushed.machine;
    looks(system, full);
    entries(system, full);
    schedules(system, full);
}

fn main(rt: HostRuntime) {
    let system = text_system::of(rt);
    makings(&system);
    come_round(&system, 1, 1, 16383);
    come_round(&system, 1, 2, 49152);
    come_round(&system, 2, 1, 16383);
    where_they_begin_anew(&system);
}
