// Runs a schedule, from a file or from standard input, and tries every sequence of acts from where it ends.
#![tactic(auto)]

mod load;
mod many;

use std::process::ExitCode;
use text_system::System;
use text_system::files::Flow;
use walk_options::Options;

// Each answers the status of the program.

// The file that this argument names.
fn run_file(system: &System, o: Options, file: usize) -> u8 {
    let mut path = [0; 4096];
    let n = text_system::arguments::read(system, file, &mut path);
    if text_system::why(system) != 0 {
        text_system::fail(system, b"walk");
        return replay_many::UNREADABLE;
    }
    match text_system::files::open(system, &path[..n]) {
        Some(file) => run_from(system, o, Flow::Of(file), &path[..n]),
        None => {
            replay_input::say::fail(system, "walk", &path[..n]);
            replay_many::UNREADABLE
        }
    }
}

fn run_from(system: &System, o: Options, from: Flow, name: &[u8]) -> u8 {
    match replay_input::source::kept(system, "walk", from, name) {
        Some(kept) => {
            let status = many::run_all(system, o, &kept, name);
            replay_input::source::release(kept);
            status
        }
        None => replay_many::UNREADABLE,
    }
}

// Nothing but a text of the program's own, which is whole or not.
fn said(system: &System, whole: bool) -> u8 {
    replay_many::status_of(system, "walk", replay_many::DONE, whole)
}

fn run(system: &System, o: Options) -> u8 {
    if o.help {
        return said(system, walk_options::help(system));
    }
    if o.version {
        return said(system, text_options::version(system, "walk"));
    }
    if o.wrong {
        return replay_many::UNREADABLE;
    }
    if let Some(file) = o.file {
        return run_file(system, o, file);
    }
    run_from(system, o, Flow::Standard, b"standard input")
}

fn main(rt: HostRuntime) -> ExitCode {
    let system = text_system::of(rt);
    let o = walk_options::read(&system);
    let starter = replay_input::starter::asking(&system, o.tells_on);
    let status = run(&system, o);
    replay_input::starter::ending(&system, starter, status)
}
