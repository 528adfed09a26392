// What replay writes of the ring's entries: the line of each, and counts along the run. Ring and records are words, as a host has them (crate bounded_rows).
#![tactic(auto)]

pub mod because;
pub mod moments;
pub mod summary;

use crate::because::Because;
use crate::moments::Answers;
use crate::summary::Summary;
use bounded_places::Place;
use replay_options::Options;
use replay_survey::counts::{Kind, kind_of};
use text_output::Text;
use text_system::System;

// One entry that was run: its place, its first word, the number of its refusal, how many workers there are, the words of the ring but for its slots, and the words
// of its worker's record before it and after it.
#[derive(Clone, Copy)]
pub struct Entered {
    pub place: u64,
    pub first: u64,
    pub refusal: u64,
    pub count: u64,
    pub ring: [u64; 8],
    pub before: [u64; 5],
    pub after: [u64; 5],
}

impl Entered {
    pub fn kind(&self) -> Kind {
        kind_of(self.first, self.refusal)
    }

    pub fn worker(&self) -> u64 {
        self.first / 16
    }

    // Where its worker stood before it.
    pub fn stood(&self) -> Place {
        bounded_codes::place_in(self.before[0], self.before[1], self.before[2])
    }

    pub fn stands(&self) -> Place {
        bounded_codes::place_in(self.after[0], self.after[1], self.after[2])
    }
}

// What is counted along a run, and told by what is asked.
#[derive(Clone, Copy)]
pub struct Along {
    asked: Options,
    summary: Summary,
    because: Because,
    answers: Answers,
}

impl Along {
    // Before the first entry, of a ring of this capacity; the whole may be refused.
    pub fn new(asked: Options, refused: bool, capacity: u64) -> Along {
        Along {
            asked,
            summary: Summary::new(refused),
            because: Because::new(),
            answers: Answers::new(capacity),
        }
    }

    // One more entry, with its line unless none is asked.
    pub fn entered(&mut self, system: &System, e: &Entered, text: &mut Text) {
        if self.asked.summary || self.asked.stock {
            self.summary.after(e);
        }
        if self.asked.causes {
            self.because.after(e);
        }
        if self.asked.moments {
            self.answers.after(e, self.asked.narrow);
        }
        if !self.asked.quiet {
            self.line(system, e, text);
        }
    }

    // PLACE R h=H t=T m=M wN=S, and what is asked beside it; - where there is no such worker
    fn line(&self, system: &System, e: &Entered, text: &mut Text) {
        let w = e.worker();
        let there = w < e.count;
        let numbers = [e.place, e.refusal, e.ring[4], e.ring[5], e.ring[6], w];
        text.form("# # h=# t=# m=# w#=", &numbers);
        if there {
            bounded_text_codes::place(text, e.after[0], e.after[1], e.after[2]);
        } else {
            text.byte(b'-');
        }
        if self.asked.causes {
            self.because.tell(text);
        }
        if self.asked.losses && there {
            text.form(" lost=#,#", &[e.after[3], e.after[4]]);
        }
        if self.asked.losses && !there {
            text.text(" lost=-");
        }
        if self.asked.stock {
            self.summary.tell_stock(text);
        }
        if self.asked.moments {
            self.answers.tell(text);
        }
        text.byte(b'\n');
        text.settle(system);
        if self.asked.moments {
            self.answers.tell_window(system, text, e.place);
        }
    }

    // The counts over the whole, where they are asked.
    pub fn tell(&self, text: &mut Text) {
        if !self.asked.summary {
            return;
        }
        self.summary.tell(text);
        if self.asked.causes {
            self.because.tell_counts(text);
        }
        if self.asked.losses {
            self.summary.tell_losses(text);
        }
    }
}

// PLACE R h=H t=T m=M, of the whole
pub fn report(text: &mut Text, place: u64, refusal: u64, ring: [u64; 8]) {
    let numbers = [place, refusal, ring[4], ring[5], ring[6]];
    text.form("# # h=# t=# m=#\n", &numbers);
}
