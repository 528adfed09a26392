// A machine, run pair by pair. The first pair makes it (its first number, where a ring has its capacity, is not used); then every pair is an entry.
use replay_input::source::Reading;
use replay_options::Options;
use replay_survey::pieces::Run;
use replay_survey::runs::Runner;
use replay_survey::{Played, Whole, answers, runs};
use std::fs::File;
use text_output::Text;
use text_system::System;
use unbounded_machine::Machine;
use unbounded_text::machine;

// The machine, and whether no line of an entry is asked.
#[derive(Clone, Copy)]
struct Replay {
    quiet: bool,
    machine: Machine,
}

// How far the run is, and the machine there.
#[derive(Clone, Copy)]
struct Stepped {
    run: Run,
    machine: Machine,
}

// PLACE R h=H hb=B t=T tb=B m=M wN=S
fn line(system: &System, text: &mut Text, place: u64, refusal: u64, w: u64, m: &Machine) {
    let stands = machine::place_of(m, w);
    let standing = machine::standing_of(m);
    machine::entry(text, place, refusal, w, standing, stands);
    text.settle(system);
}

// Entry by entry, with a line for each, to the list's end or to the first refusal. A loop of its own and not `runs::steps`: behind a reference the machine is copied once
// or twice more an entry, which then takes 1.2 to 1.5 times as long.
fn steps(system: &System, run: Run, begun: Machine, list: &[u64], text: &mut Text) -> Stepped {
    let mut m = begun;
    let mut refusal = run.refusal;
    let mut place = run.place;
    for i in 0..list.len() / 2 {
        if refusal != 0 {
            break;
        }
        let w = list[2 * i] / 16;
        let ran = unbounded::run(m, &[list[2 * i], list[2 * i + 1]]);
        m = ran.machine;
        refusal = ran.refusal;
        line(system, text, place, refusal, w, &m);
        if refusal == 0 {
            place = place.wrapping_add(1);
        }
    }
    Stepped {
        run: Run {
            place,
            refusal,
            ..run
        },
        machine: m,
    }
}

impl Runner for Replay {
    fn entries(&mut self, system: &System, run: Run, list: &[u64], text: &mut Text) -> Run {
        if self.quiet {
            let ran = unbounded::run(self.machine, list);
            self.machine = ran.machine;
            return run.ran(ran.place, ran.refusal);
        }
        let stepped = steps(system, run, self.machine, list, text);
        self.machine = stepped.machine;
        stepped.run
    }

    // contents goes through a buffer that any list fits.
    fn tell(&self, system: &System, run: Run, text: &mut Text) {
        if run.is_reported(self.quiet) {
            machine::report(
                text,
                run.place,
                run.refusal,
                machine::standing_of(&self.machine),
            );
        }
        machine::blocks(system, text, self.machine);
        let mut items = [0u64; unbounded_words::POOL];
        let t = unbounded::contents(self.machine, &mut items);
        machine::contents(system, text, &items, t);
    }

    fn answers(&self) -> [u64; answers::WORDS] {
        machine::answers(self.machine)
    }
}

// A schedule, read piece by piece and run to its end or to its first refusal.
pub fn play(
    system: &System,
    o: Options,
    file: &File,
    begun: Reading,
    whole: Whole,
    text: &mut Text,
) -> Played {
    let did = unbounded::make(whole.workers);
    text.form("made #\n", &[did.refusal]);
    let run = Run::begun(unbounded::broken(did.machine), whole);
    let mut replay = Replay {
        quiet: o.quiet,
        machine: did.machine,
    };
    runs::play(system, file, o.many, begun, run, &mut replay, text)
}
