// Schedules one after another: where the next begins, and a program's status.
#![tactic(auto)]

use replay_input::source::{Ended, Start};
use replay_survey::Survey;
use std::fs::File;
use text_numbers::Stop;
use text_output::Text;
use text_system::System;
use text_system::streams::Failed;

// The program's status.
pub const DONE: u8 = 0;

pub const REFUSED: u8 = 1;

// or not all can be written
pub const UNREADABLE: u8 = 2;

// This one, unless not all was written, which is said.
pub fn status_of(system: &System, program: &str, status: u8, whole: bool) -> u8 {
    if replay_input::say::is_written(system, program, whole) {
        status
    } else {
        UNREADABLE
    }
}

pub fn worse(status: u8, refused: bool) -> u8 {
    if refused { REFUSED } else { status }
}

#[derive(Clone, Copy)]
pub struct Next {
    pub more: bool,
    pub from: Start,
    pub status: u8,
}

impl Next {
    pub fn first() -> Next {
        Next {
            more: true,
            from: Start::of_file(),
            status: DONE,
        }
    }

    pub fn stop(status: u8) -> Next {
        Next {
            more: false,
            status,
            ..Next::first()
        }
    }

    // After one schedule: a mark leads to the next.
    pub fn after(s: &Survey, status: u8) -> Next {
        let r = &s.reading;
        Next {
            more: r.ended == Some(Ended::Stop(Stop::Mark)),
            from: Start {
                offset: r.offset,
                line: r.words.scan.line,
                sum: r.sum_of(),
            },
            status,
        }
    }

    // Nothing more is read once the text is lost, so that the system still says why.
    pub fn unless_lost(self, text: &Text) -> Next {
        Next {
            more: self.more && !text.is_lost(),
            ..self
        }
    }

    // A mark at the very end begins no further schedule.
    pub fn unless_at_end(self, system: &System, program: &str, name: &[u8], file: &File) -> Next {
        if !self.more {
            return self;
        }
        let mut byte = [0u8; 1];
        let offset = replay_input::source::to_offset(self.from.offset);
        match text_system::files::read_at(system, file, &mut byte, offset) {
            Err(Failed) => {
                replay_input::say::fail(system, program, name);
                Next::stop(UNREADABLE)
            }
            Ok(n) => Next {
                more: n != 0,
                ..self
            },
        }
    }

    // Whether the schedules that were run, to the last, are those that were looked through before.
    fn is_as_looked(&self, looked: &Next, text: &Text) -> bool {
        self.status == UNREADABLE || text.is_lost() || self.from.sum == looked.from.sum
    }

    // As `written`, of schedules that were looked through before.
    pub fn written_as_looked(
        &self,
        system: &System,
        program: &str,
        name: &[u8],
        looked: &Next,
        text: &mut Text,
    ) -> u8 {
        if self.is_as_looked(looked, text) {
            return self.written(system, program, text);
        }
        replay_input::say::changed(system, program, name);
        UNREADABLE
    }

    // The rest of the text, unless what was read has failed, which was said; answers the status.
    pub fn written(&self, system: &System, program: &str, text: &mut Text) -> u8 {
        if self.status == UNREADABLE {
            return UNREADABLE;
        }
        text.flush(system);
        status_of(system, program, self.status, !text.is_lost())
    }
}

// From the file's first schedule on, each as `one` does it, until there is no more.
pub fn each<F: FnMut(Next) -> Next + Drop>(
    system: &System,
    program: &str,
    name: &[u8],
    file: &File,
    mut one: F,
) -> Next
    requires { F.IsAlwaysCallable one }
{
    let mut n = Next::first();
    for _ in 0..u64::MAX {
        if !n.more {
            break;
        }
        n = one(n).unless_at_end(system, program, name, file);
    }
    n
}
