// One schedule, or one after another: each is read once to see that it can be run, and once more to be run and walked from.
use bounded_text_words::{RECORDS, WORDS};
use replay_input::say::Hints;
use replay_input::source::{Reading, Start};
use replay_many::{Next, UNREADABLE};
use replay_survey::pieces::Run;
use replay_survey::{Played, Survey, Whole, answers};
use std::fs::File;
use text_output::Text;
use text_sums::Sum;
use text_system::System;
use walk_options::Options;
use walk_play::tell::{Asked, Telling};

const HINTS: Hints = Hints {
    mark: "; several schedules are read with --many",
    tape: "; tape read prints a tape as a schedule",
    no_capacity: "; walk has the ring alone, which has one",
};

fn answers_in(m: [u64; WORDS]) -> [u64; answers::WORDS] {
    answers::in_records(&m[RECORDS..WORDS])
}

// What is asked of the schedules of a file, which has this name.
#[derive(Clone, Copy)]
struct Job<'a> {
    system: &'a System,
    o: Options,
    file: &'a File,
    name: &'a [u8],
}

impl Job<'_> {
    fn surveyed(&self, from: Start) -> Survey {
        replay_survey::surveyed(self.system, self.file, self.o.many, 0, 16, false, from)
    }

    fn is_sound(&self, s: &Survey) -> bool {
        replay_input::say::is_sound(
            self.system,
            "walk",
            self.name,
            self.file,
            self.o.many,
            &s.reading,
            s.numbers(),
            HINTS,
        )
    }

    // Read once, and not run.
    fn look(&self, n: Next) -> Next {
        let s = self.surveyed(n.from);
        if !self.is_sound(&s) {
            return Next::stop(UNREADABLE);
        }
        Next::after(&s, n.status)
    }

    fn asked(&self, due: Sum) -> Asked<'_> {
        let telling = if self.o.list {
            Telling::List
        } else if self.o.explain.is_some() {
            Telling::Words(self.o.ending)
        } else {
            Telling::Ways
        };
        Asked {
            depth: self.o.depth,
            telling,
            many: self.o.many,
            file: self.file,
            due,
        }
    }

    // What is refused of an entry is told with its line, below; one of many here too, in its place.
    fn refused(&self, text: &mut Text, run: Run) {
        if self.o.many || !replay_refusals::is_of_entry(run.refusal) {
            walk_play::refused::tell(self.system, text, self.o.many, run.refusal, &[run.place]);
        }
    }

    fn play(&self, begun: Reading, whole: Whole, text: &mut Text) -> Played {
        let l = crate::load::load(
            self.system,
            self.o.edition,
            self.file,
            self.o.many,
            begun,
            whole,
            text,
        );
        if text.is_lost() {
            return Played::told(false);
        }
        if l.run.refusal != 0 {
            self.refused(text, l.run);
            return l.run.played(answers_in(l.words));
        }
        Played::told(!self.asked(begun.due).walk(self.system, text, l.words))
    }

    fn tell_entry(&self, begun: Reading, whole: Whole, p: &Played) {
        if replay_refusals::is_of_entry(p.refusal) {
            replay_refusals::tell(
                self.system,
                self.name,
                self.file,
                self.o.many,
                begun,
                whole,
                p,
                0,
                self.o.edition,
            );
        }
    }

    fn one(&self, n: Next, text: &mut Text) -> Next {
        let s = self.surveyed(n.from);
        if !self.is_sound(&s) {
            return Next::stop(UNREADABLE);
        }
        let begun = Reading::begun(false, n.from, 0, s.reading.sum_of());
        let whole = s.refused_whole();
        let p = self.play(begun, whole, text);
        if !replay_input::say::is_read(self.system, "walk", self.name, text) {
            return Next::stop(UNREADABLE);
        }
        self.tell_entry(begun, whole, &p);
        if self.o.many {
            text.text("%\n");
            text.settle(self.system);
        }
        Next::after(&s, replay_many::worse(n.status, p.refused)).unless_lost(text)
    }

    // Of many, each is read before the first is run, so that nothing is written where one cannot be read.
    fn look_in(&self) -> Next {
        replay_many::each(self.system, "walk", self.name, self.file, |n| self.look(n))
    }

    fn run_in(&self, text: &mut Text) -> Next {
        replay_many::each(self.system, "walk", self.name, self.file, |n| {
            self.one(n, text)
        })
    }

    fn run_looked(&self, text: &mut Text) -> u8 {
        let looked = self.look_in();
        if looked.status == UNREADABLE {
            return UNREADABLE;
        }
        let n = self.run_in(text);
        n.written_as_looked(self.system, "walk", self.name, &looked, text)
    }
}

pub fn run_all(system: &System, o: Options, file: &File, name: &[u8]) -> u8 {
    let mut room = [0; 65536];
    let mut text = Text::new(&mut room);
    let job = Job {
        system,
        o,
        file,
        name,
    };
    if o.many {
        return job.run_looked(&mut text);
    }
    let n = job.run_in(&mut text);
    n.written(system, "walk", &mut text)
}
