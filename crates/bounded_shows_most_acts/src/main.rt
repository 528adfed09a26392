// Demand 3's numbers on the compiled code: schedules that leave worker 0 where its call, alone, needs exactly so many acts.
// The numbers of `stdout` are document 01's.
#![tactic(auto)]

use bounded_text_faces::Call;
use bounded_text_words::WORDS;
use text_output::Text;
use text_system::System;

// By the code of its place: 0 to 10 are those of idle workers.
fn busy(m: [u64; WORDS]) -> bool {
    10 < bounded_text_words::record(m, 0, 0)
}

// Acts of worker 0 alone until it is idle; at most 9 are tried.
fn needed(m: [u64; WORDS]) -> u64 {
    let mut now = m;
    for n in 0..9 {
        if !busy(now) {
            return n;
        }
        now = bounded_text_faces::enter(Call::Step, now, 8, 0).words;
    }
    9
}

// CALL at PLACE: ACTS
fn say(system: &System, call: &str, capacity: u64, schedule: &[u64]) {
    let fresh = bounded_text_faces::make(capacity, 2, 1).words;
    let m = bounded_text_faces::run(fresh, schedule).words;
    let mut room = [0; 512];
    let mut text = Text::new(&mut room);
    text.text(call);
    text.text(" at ");
    bounded_text_words::text::place(&mut text, 0, m);
    text.form(": #", &[needed(m)]);
    text.end_line(system);
}

// A word of tail that another push has put out of date.
fn pushes(system: &System) {
    say(
        system,
        "push",
        2,
        &[0, 0, 8, 0, 16, 7, 24, 0, 24, 0, 24, 0, 24, 0, 24, 0],
    );
    say(
        system,
        "force_push",
        1,
        &[1, 0, 8, 0, 16, 7, 24, 0, 24, 0, 24, 0, 24, 0, 24, 0],
    );
}

// Out of date at the last load before an answer.
fn pops(system: &System) {
    say(
        system,
        "pop",
        2,
        &[2, 0, 8, 0, 8, 0, 16, 7, 24, 0, 24, 0, 24, 0, 24, 0, 24, 0],
    );
    say(
        system,
        "len",
        2,
        &[3, 0, 8, 0, 16, 7, 24, 0, 24, 0, 24, 0, 24, 0, 24, 0],
    );
}

fn lookers(system: &System) {
    say(system, "is_empty", 2, &[4, 0]);
    say(system, "is_full", 2, &[5, 0]);
    say(system, "close", 2, &[6, 0]);
    say(system, "is_closed", 2, &[7, 0]);
}

fn hands(system: &System) {
    say(system, "in hand", 2, &[0, 0, 8, 0, 8, 0, 8, 0]);
    say(
        system,
        "in hand",
        1,
        &[
            16, 7, 24, 0, 24, 0, 24, 0, 24, 0, 24, 0, 1, 0, 8, 0, 8, 0, 8, 0,
        ],
    );
    say(
        system,
        "in hand",
        2,
        &[
            16, 7, 24, 0, 24, 0, 24, 0, 24, 0, 24, 0, 2, 0, 8, 0, 8, 0, 8, 0,
        ],
    );
}

fn main(rt: HostRuntime) {
    let system = text_system::of(rt);
    pushes(&system);
    pops(&system);
    lookers(&system);
    hands(&system);
}
