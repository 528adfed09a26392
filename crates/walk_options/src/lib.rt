// The arguments of walk.
#![tactic(auto)]

use text_options::{Arguments, Known, Wanted};
use text_system::System;

const TABLE: &[Known] = &[
    ("--edition", Wanted::Number),
    ("--depth", Wanted::Number),
    ("--ending", Wanted::NumberFrom1),
    ("--list", Wanted::Nothing),
    ("--explain", Wanted::Nothing),
    ("--many", Wanted::Nothing),
    ("--help", Wanted::Nothing),
    ("--tell-status", Wanted::Nothing),
    ("-h", Wanted::Nothing),
    ("--version", Wanted::Nothing),
    ("--tell-status-on", Wanted::Number),
    ("--queue", Wanted::OfAnother),
    ("--bits", Wanted::OfAnother),
    ("--lent", Wanted::OfAnother),
    ("--tape", Wanted::OfAnother),
];

#[derive(Clone, Copy)]
pub struct Options {
    // handed to making as it stands
    pub edition: u64,
    // handed to the walk as it stands
    pub depth: u64,
    pub list: bool,
    // the number of the last argument that asks for endings in words
    pub explain: Option<usize>,
    // only this one of them, from 1; None: all
    pub ending: Option<u64>,
    pub many: bool,
    pub help: bool,
    pub version: bool,
    // the starter asks for the status on this descriptor; 0: nobody asks
    pub tells_on: u64,
    // the number of the argument that names the file; None: standard input
    pub file: Option<usize>,
    // an argument is wrong, and that was said
    pub wrong: bool,
}

// Endings in words are a text of their own, of one schedule.
fn judge(a: &mut Arguments) {
    let words = ["--explain", "--ending"];
    a.refuse_dash();
    a.clashes("--list", &words, a.is_given("--list"));
    a.clashes("--many", &words, a.is_given("--many"));
}

fn options_of(a: &Arguments) -> Options {
    Options {
        edition: a.value("--edition").unwrap_or(1),
        depth: a.value("--depth").unwrap_or(12),
        list: a.is_given("--list"),
        explain: a.place("--explain").max(a.place("--ending")),
        ending: a.value("--ending"),
        many: a.is_given("--many"),
        help: a.is_given("--help") || a.is_given("-h"),
        version: a.is_given("--version"),
        tells_on: if a.is_given("--tell-status") {
            3
        } else {
            a.value("--tell-status-on").unwrap_or(0)
        },
        file: a.name(0),
        wrong: a.is_wrong(),
    }
}

// Says what is wrong, unless help or the version is asked for. Standard input is read where no file is named.
pub fn read(system: &System) -> Options {
    let mut a = text_options::read(system, TABLE, 1);
    judge(&mut a);
    let o = options_of(&a);
    if o.wrong && !o.help && !o.version {
        a.complain(
            system,
            "walk",
            " is replay's: walk has the ring of 64 bits, from a text, and no other",
        );
    }
    o
}

// Answers whether all of it was written.
pub fn help(system: &System) -> bool {
    text_system::streams::put(
        system,
        b"walk [--edition N] [--depth D] [--list] [--many] [--explain] [--ending N] [SCHEDULE]\n\
        \n\
        Runs a schedule on the stamped ring, then tries every sequence of acts from there: of exactly so\n\
        many acts, or ending sooner because all workers are idle. There are 1 to 3 workers, and each must\n\
        have a call under way. The schedule is read from SCHEDULE, or from standard input; replay --help\n\
        says how it is written.\n\
        \n\
        \x20 walked depth=D sequences=S bytes=B   the number of sequences, and of bytes that list them\n\
        \x20 wK=E sequences=S shortest A 0 ...    for each worker and each way that it ends: how many sequences\n\
        \x20                                      end so, and the first of the shortest, its acts as the\n\
        \x20                                      entries of a schedule\n\
        \x20 ends w0=E ... sequences=S shortest A 0 ...\n\
        \x20                                      the same for all workers together\n\
        \x20 unlisted sequences=S                 after 512 ways of one, or of all together: how many end in\n\
        \x20                                      still others\n\
        \n\
        E is idle:ANSWER as replay has it, or busy where the call is still under way. Ways to end stand in\n\
        the order in which they come: lowest worker first, code 8 before code 9.\n\
        \n\
        A refusal is one line on standard error, refused N: and what it means. Of the machine: 1 capacity,\n\
        2 workers, 18 edition; of the schedule, with the entry's place: 3 to 9, 11; of the walk: 19 more\n\
        than 3 workers or a depth above 12, 20 an idle worker, 21 fewer acts left on the meter than the\n\
        depth, 22 a list longer than the buffer, which has 4194304 bytes.\n\
        Status: 0 walked, 1 refused, 2 the input or the arguments cannot be read, or not all can be written.\n\
        \n\
        \x20 --edition 2   the ring whose force_push keeps a close (1 unless told)\n\
        \x20 --depth D     the most acts of a sequence, 0 to 12: 12 unless told\n\
        \x20 --list        nothing but the sequences, one a line, as the entries of a schedule; one of no act\n\
        \x20               is an empty line\n\
        \x20 --many        several schedules, separated by a line with a single %; a line % follows each\n\
        \x20               output, and what is refused is told in its place\n\
        \x20 --explain     the ways that all workers together end in, in plain words, and for each the first of\n\
        \x20               the shortest schedules that end so, whole and in words; all else is comments and a\n\
        \x20               line % after each, so that replay --many runs it\n\
        \x20 --ending N    of these only the N-th, from 1, without %, for replay to run\n\
        \x20 --version     prints the version\n\
        \x20 -h, --help    prints this\n\
        \n\
        A value may stand behind an = too, as in --depth=6. What follows a word -- is a name.\n",
    )
}
