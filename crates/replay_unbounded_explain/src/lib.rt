// A run of the unbounded queue in plain words: entry by entry, and what stands at the end.
#![tactic(auto)]

mod ends;

use replay_explain::Explained;
use replay_input::source::Reading;
use replay_options::Options;
use replay_survey::pieces::Run;
use replay_survey::runs::Runner;
use replay_survey::{Played, Whole, answers, runs};
use std::fs::File;
use text_explain::words;
use text_output::Text;
use text_system::System;
use unbounded_machine::Machine;
use unbounded_text::machine;
use unbounded_text_explain::notes::Notes;
use unbounded_text_explain::{Seen, lines, notes};

// What is asked, the machine, and what is noted along its run; apart, the slots of the pool that have the item that is followed.
#[derive(Clone, Copy)]
pub struct Told {
    how: Explained,
    machine: Machine,
    notes: Notes,
    slots: [u64; unbounded_words::POOL],
}

fn seen(m: &Machine, w: u64) -> Seen {
    let ends = machine::standing_of(m).ends;
    Seen {
        ends: [ends.head.0, ends.tail.0, unbounded_words::number(ends.back)],
        stood: unbounded_text_places::code::of(machine::place_of(m, w)),
    }
}

impl Told {
    // Answers its refusal, or 0.
    fn step(
        &mut self,
        system: &System,
        place: u64,
        first: u64,
        second: u64,
        text: &mut Text,
    ) -> u64 {
        let w = first / 16;
        let item = self.how.follows.unwrap_or(0);
        let before = seen(&self.machine, w);
        let ran = unbounded::run(self.machine, &[first, second]);
        self.machine = ran.machine;
        if ran.refusal != 0 {
            words::refused(system, text, self.how.colours, place, ran.refusal, w);
            return ran.refusal;
        }
        let e = unbounded_text_explain::entry(place, first, second, before, seen(&ran.machine, w));
        let is_of = notes::is_of(self.notes, &self.slots, e, item);
        notes::claims(&mut self.slots, e, item);
        let follows = self.how.follows.is_some();
        if is_of || !follows {
            lines::told(system, text, self.how.colours, follows, e, self.notes);
        }
        self.notes = notes::noted(self.notes, e, is_of);
        0
    }
}

impl Runner for Told {
    fn entries(&mut self, system: &System, run: Run, list: &[u64], text: &mut Text) -> Run {
        runs::steps(
            run,
            list,
            |place, first, second| self.step(system, place, first, second, text),
        )
    }

    fn tell(&self, system: &System, run: Run, text: &mut Text) {
        replay_explain::tell(system, self.how, run, self, text);
    }

    fn answers(&self) -> [u64; answers::WORDS] {
        machine::answers(self.machine)
    }
}

// A schedule, read piece by piece, run and told to its end or to its first refusal.
pub fn play(
    system: &System,
    o: Options,
    how: Explained,
    file: &File,
    begun: Reading,
    whole: Whole,
    text: &mut Text,
) -> Played {
    let did = unbounded::make(whole.workers);
    lines::made(system, text, how.colours, did.refusal, whole.workers);
    let mut told = Told {
        how,
        machine: did.machine,
        notes: notes::none(),
        slots: [0; unbounded_words::POOL],
    };
    let run = Run::begun(unbounded::broken(did.machine), whole);
    runs::play(system, file, o.many, begun, run, &mut told, text)
}
