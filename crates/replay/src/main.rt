// Runs a schedule, from a file or from standard input, entry by entry, and writes what the machine holds after each.
#![tactic(auto)]

mod many;
mod queue;

use replay_options::Options;
use std::process::ExitCode;
use text_system::System;
use text_system::files::Flow;

// Each answers the status of the program.

// The file that this argument names.
fn run_file(system: &System, o: Options, argument: usize) -> u8 {
    let mut path = [0u8; 4096];
    let n = text_system::arguments::read(system, argument, &mut path);
    if text_system::why(system) != 0 {
        text_system::fail(system, b"replay");
        return replay_many::UNREADABLE;
    }
    match text_system::files::open(system, &path[..n]) {
        Some(file) => run_from(system, o, Flow::Of(file), &path[..n]),
        None => {
            replay_input::say::fail(system, "replay", &path[..n]);
            replay_many::UNREADABLE
        }
    }
}

fn run_from(system: &System, o: Options, from: Flow, name: &[u8]) -> u8 {
    match replay_input::source::kept(system, "replay", from, name) {
        Some(kept) => {
            let status = many::run_all(system, o, &kept, name);
            replay_input::source::release(kept);
            status
        }
        None => replay_many::UNREADABLE,
    }
}

fn told(system: &System, is_whole: bool) -> u8 {
    replay_many::status_of(system, "replay", replay_many::DONE, is_whole)
}

fn run(system: &System, o: Options) -> u8 {
    if o.help {
        return told(system, replay_options::help(system));
    }
    if o.version {
        return told(system, text_options::version(system, "replay"));
    }
    if o.wrong {
        return replay_many::UNREADABLE;
    }
    match o.file {
        Some(argument) => run_file(system, o, argument),
        None => run_from(system, o, Flow::Standard, b"standard input"),
    }
}

fn main(rt: HostRuntime) -> ExitCode {
    let system = text_system::of(rt);
    let o = replay_options::read(&system);
    let starter = replay_input::starter::asking(&system, o.tells_on);
    let status = run(&system, o);
    replay_input::starter::ending(&system, starter, status)
}
