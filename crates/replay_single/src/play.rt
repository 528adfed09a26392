// A machine, run pair by pair. The first pair of numbers makes it: a capacity, which stands in no schedule of the one-slot queue and which
// whoever reads one puts before it (1), and the number of workers. Every other pair is an entry.
use crate::summary;
use replay_input::source::Reading;
use replay_options::Options;
use replay_survey::counts::{Counts, Kind, kind_of};
use replay_survey::pieces::Run;
use replay_survey::runs::Runner;
use replay_survey::{Played, Whole, answers, runs};
use single_machine::Machine;
use std::fs::File;
use text_output::Text;
use text_system::System;

// What is asked, the machine, and what is counted along its run.
#[derive(Clone, Copy)]
struct Replay {
    asked: Options,
    machine: Machine,
    counts: Counts,
}

impl Replay {
    // With the line PLACE R s=STATE m=M wN=S, unless none is asked; answers its refusal, or 0.
    fn step(
        &mut self,
        system: &System,
        place: u64,
        first: u64,
        second: u64,
        text: &mut Text,
    ) -> u64 {
        let w = first / 16;
        let ran = single::run(self.machine, &[first, second]);
        self.machine = ran.machine;
        let stands = single_text::place_of(ran.machine, w);
        if self.asked.summary {
            let kind = kind_of(first, ran.refusal);
            self.counts.entered(kind);
            if kind == Kind::Acted {
                self.counts
                    .acted(summary::is_retry(stands), summary::number_of(stands));
            }
        }
        if !self.asked.quiet {
            let numbers = single_text::numbers(ran.machine);
            single_text::text::entry(text, place, ran.refusal, w, numbers, stands);
            text.byte(b'\n');
            text.settle(system);
        }
        ran.refusal
    }
}

impl Runner for Replay {
    // All at once where no line of theirs is asked and no count.
    fn entries(&mut self, system: &System, run: Run, list: &[u64], text: &mut Text) -> Run {
        if self.asked.quiet && !self.asked.summary {
            let ran = single::run(self.machine, list);
            self.machine = ran.machine;
            return run.ran(ran.place, ran.refusal);
        }
        runs::steps(
            run,
            list,
            |place, first, second| self.step(system, place, first, second, text),
        )
    }

    // contents goes through a buffer that any list fits.
    fn tell(&self, _system: &System, run: Run, text: &mut Text) {
        if run.is_reported(self.asked.quiet) {
            let numbers = single_text::numbers(self.machine);
            single_text::text::report(text, run.place, run.refusal, numbers);
            text.byte(b'\n');
        }
        single_text::text::value(text, self.machine);
        let mut item = [0u64; 1];
        let t = single::contents(self.machine, &mut item);
        single_text::text::contents(text, item[0], t);
        if self.asked.summary {
            self.counts.tell(text);
        }
    }

    fn answers(&self) -> [u64; answers::WORDS] {
        single_text::answers(self.machine)
    }
}

// A schedule, read piece by piece and run to its end or to its first refusal.
pub fn play(
    system: &System,
    o: Options,
    file: &File,
    begun: Reading,
    whole: Whole,
    text: &mut Text,
) -> Played {
    let did = single::make(whole.workers);
    text.form("made #\n", &[did.refusal]);
    let run = Run::begun(single::broken(did.machine), whole);
    let mut replay = Replay {
        asked: o,
        machine: did.machine,
        counts: Counts::new(run.refusal != 0),
    };
    runs::play(system, file, o.many, begun, run, &mut replay, text)
}
