// Tapes of schedules as files: `tape write` and `tape read`, see `tape --help`.
#![tactic(auto)]

mod asked;

use asked::{Act, Asked};
use replay_input::starter::Starter;
use std::process::ExitCode;
use tapes_numbers::Variant;
use text_system::System;
use text_system::files::Flow;

fn run_from(system: &System, starter: Starter, a: Asked, act: Act, from: Flow, name: &[u8]) -> u8 {
    match act {
        Act::Write => {
            let variant = if a.little {
                Variant::LittleEndian
            } else {
                Variant::BigEndian
            };
            let mut tape = [0u8; 4096];
            let n = text_system::arguments::read(system, a.to.unwrap_or(0), &mut tape);
            tape_writes::run(system, starter, from, name, variant, &tape[..n])
        }
        Act::Read => tape_reads::run(system, from, name, a.words),
    }
}

fn run_file(system: &System, starter: Starter, a: Asked, act: Act, name: &[u8]) -> u8 {
    if tape_files::files::is_standard(name) {
        return run_from(system, starter, a, act, Flow::Standard, b"standard input");
    }
    match text_system::files::open(system, name) {
        Some(file) => run_from(system, starter, a, act, Flow::Of(file), name),
        None => {
            replay_input::say::fail(system, "tape", name);
            2
        }
    }
}

fn told(system: &System, whole: bool) -> u8 {
    if replay_input::say::is_written(system, "tape", whole) {
        return 0;
    }
    2
}

// 0: done. 1: the tape or the schedule is refused. 2: anything else.
fn status_of(system: &System, starter: Starter, a: Asked) -> u8 {
    if a.help {
        return told(system, asked::help(system));
    }
    if a.version {
        return told(system, text_options::version(system, "tape"));
    }
    match a.act {
        Some(act) => {
            let mut name = [0u8; 4096];
            let n = text_system::arguments::read(system, a.from.unwrap_or(0), &mut name);
            run_file(system, starter, a, act, &name[..n])
        }
        None => 2,
    }
}

fn main(rt: HostRuntime) -> ExitCode {
    let system = text_system::of(rt);
    let a = asked::read(&system);
    let starter = replay_input::starter::asking(&system, a.tells_on);
    let status = status_of(&system, starter, a);
    replay_input::starter::ending(&system, starter, status)
}
