// The arguments of tape.
use text_options::{Arguments, Known, Wanted};
use text_system::System;

// What is to be done.
#[derive(Clone, Copy, PartialEq, Eq)]
pub enum Act {
    Write,
    Read,
}

const TABLE: &[Known] = &[
    ("--little", Wanted::Nothing),
    ("--words", Wanted::Nothing),
    ("--help", Wanted::Nothing),
    ("-h", Wanted::Nothing),
    ("--version", Wanted::Nothing),
    ("--tell-status", Wanted::Nothing),
    ("--tell-status-on", Wanted::Number),
];

#[derive(Clone, Copy)]
pub struct Asked {
    // the starter asks for the status on this descriptor; 0: nobody asks
    pub tells_on: u64,
    pub help: bool,
    pub version: bool,
    // None: an argument is wrong or missing, and that was said
    pub act: Option<Act>,
    pub little: bool,
    // the schedule is printed in words, and not in numbers
    pub words: bool,
    // the numbers of the arguments that name the files
    pub from: Option<usize>,
    pub to: Option<usize>,
}

// The first name says what is to be done.
fn act_of(system: &System, a: &Arguments) -> Option<Act> {
    let mut word = [0u8; 4096];
    let n = text_system::arguments::read(system, a.name(0)?, &mut word);
    match &word[..n] {
        b"write" => Some(Act::Write),
        b"read" => Some(Act::Read),
        _ => None,
    }
}

fn asked_of(a: &Arguments, act: Option<Act>) -> Asked {
    Asked {
        tells_on: if a.is_given("--tell-status") {
            replay_input::starter::FILENO
        } else {
            a.value("--tell-status-on").unwrap_or(0)
        },
        help: a.is_given("--help") || a.is_given("-h"),
        version: a.is_given("--version"),
        act,
        little: a.is_given("--little"),
        words: a.is_given("--words"),
        from: a.name(1),
        to: a.name(2),
    }
}

fn say(system: &System, text: &str) {
    text_system::streams::put_error(system, text.as_bytes());
}

// What is to be done; None: something is wrong, and that is said.
fn judged(system: &System, a: &Arguments) -> Option<Act> {
    if a.is_wrong() {
        a.complain(system, "tape", "");
        return None;
    }
    match (act_of(system, a), a.count()) {
        (Some(Act::Read), 2) if a.is_given("--little") => {
            say(
                system,
                "tape: --little goes with write alone (see --help)\n",
            );
            None
        }
        (Some(Act::Write), 3) if a.is_given("--words") => {
            say(system, "tape: --words goes with read alone (see --help)\n");
            None
        }
        (Some(Act::Read), 2) => Some(Act::Read),
        (Some(Act::Write), 3) => Some(Act::Write),
        _ => {
            say(
                system,
                "tape: usage: tape write [--little] SCHEDULE TAPE, or tape read [--words] TAPE (see --help)\n",
            );
            None
        }
    }
}

pub fn read(system: &System) -> Asked {
    let a = text_options::read(system, TABLE, 3);
    let o = asked_of(&a, None);
    if o.help || o.version {
        return o;
    }
    asked_of(&a, judged(system, &a))
}

// Answers whether all of it was written.
pub fn help(system: &System) -> bool {
    text_system::streams::put(
        system,
        b"tape write [--little] SCHEDULE TAPE\n\
        tape read [--words] TAPE\n\
        \n\
        Writes a schedule, as replay reads it, to a tape; or reads a tape and prints its schedule, as replay\n\
        reads it: capacity and workers, then a line for each entry. - is standard input or output.\n\
        replay --tape TAPE runs a tape as it is.\n\
        \n\
        \x20 --little    the second variant of tapes, with little-endian numbers\n\
        \x20 --words     the schedule in words, which replay reads too: capacity N, workers N, w0 push 5,\n\
        \x20             w0 act 5\n\
        \x20 --version   prints the version\n\
        \x20 -h, --help  prints this\n\
        \n\
        What follows a word -- is a name.\n\
        \n\
        A tape appears whole or not at all. What is refused is told in a line on standard error, and nothing\n\
        is written: 'refused N at entry E' of a schedule, 'refused N at byte B' of a tape, B being where the\n\
        field at fault begins. 11 odd number of words, 12 cut short, 13 unknown tag, wrong length or place,\n\
        or mixed variant, 14 code not allowed under its tag, 15 bytes after the end, 17 an entry that a tape\n\
        can't carry (code 10 to 15, an item where none may be, worker above 15), or a capacity or worker\n\
        count above 65,535.\n\
        \n\
        Status: 0 done, 1 refused, 2 the input or the arguments cannot be read, or not all can be written.\n",
    )
}
