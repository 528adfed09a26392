// The arguments of replay.
#![tactic(auto)]

use text_options::{Arguments, Known, Wanted};
use text_system::System;

// The queues that replay knows, as --queue has them.
#[derive(Clone, Copy, PartialEq, Eq)]
pub enum Queue {
    Bounded,
    Single,
    Unbounded,
}

const TABLE: &[Known] = &[
    (
        "--queue",
        Wanted::OneOf(&["bounded", "single", "unbounded"]),
    ),
    ("--edition", Wanted::Number),
    ("--bits", Wanted::OneOf(&["64", "16"])),
    ("--follow", Wanted::Number),
    ("--lent", Wanted::Nothing),
    ("--quiet", Wanted::Nothing),
    ("--causes", Wanted::Nothing),
    ("--moments", Wanted::Nothing),
    ("--losses", Wanted::Nothing),
    ("--stock", Wanted::Nothing),
    ("--summary", Wanted::Nothing),
    ("--many", Wanted::Nothing),
    ("--words-of", Wanted::Nothing),
    ("--explain", Wanted::Nothing),
    ("--tape", Wanted::Nothing),
    ("--help", Wanted::Nothing),
    ("--tell-status", Wanted::Nothing),
    ("-h", Wanted::Nothing),
    ("--version", Wanted::Nothing),
    ("--tell-status-on", Wanted::Number),
];

#[derive(Clone, Copy)]
pub struct Options {
    pub queue: Queue,
    // handed to making as it stands
    pub edition: u64,
    // head, tail and stamps have sixteen bits, and not 64
    pub narrow: bool,
    // the records are lent for each entry
    pub lent: bool,
    pub quiet: bool,
    pub causes: bool,
    pub moments: bool,
    pub losses: bool,
    pub stock: bool,
    pub summary: bool,
    pub many: bool,
    // the schedule is told in words, and not run
    pub words: bool,
    // a line in plain words for each entry
    pub explain: bool,
    // of these only those of one item's life
    pub follow: bool,
    pub item: u64,
    // the input is a tape, and no text
    pub tape: bool,
    pub help: bool,
    pub version: bool,
    // the starter asks for the status on this descriptor; 0: nobody asks
    pub tells_on: u64,
    // the number of the argument that names the file; None: standard input
    pub file: Option<usize>,
    // an argument is wrong, and that was said
    pub wrong: bool,
}

fn queue_of(a: &Arguments) -> Queue {
    match a.value("--queue") {
        Some(1) => Queue::Single,
        Some(2) => Queue::Unbounded,
        _ => Queue::Bounded,
    }
}

fn is_narrow(a: &Arguments) -> bool {
    a.value("--bits") == Some(1)
}

// An edition, a width, lent records, causes, moments, losses or a stock are of no use to a queue that has none. Lent records are of 64 bits; moments are kept for sixteen
// workers.
fn judge_queue(a: &mut Arguments) {
    let queue = queue_of(a);
    let ring = [
        "--edition",
        "--bits",
        "--lent",
        "--causes",
        "--moments",
        "--losses",
        "--stock",
    ];
    a.clashes("--queue", &ring, queue != Queue::Bounded);
    a.clashes("--queue", &["--summary"], queue == Queue::Unbounded);
    a.clashes("--bits", &["--lent"], is_narrow(a));
    a.clashes("--lent", &["--moments"], a.is_given("--lent"));
}

// Where a schedule is only told in words there is no run, and where a run is told in plain words there are no lines in numbers.
fn judge_words(a: &mut Arguments) {
    let run = ["--edition", "--bits", "--lent", "--explain"];
    let lines = [
        "--quiet",
        "--causes",
        "--moments",
        "--losses",
        "--stock",
        "--summary",
    ];
    a.clashes("--words-of", &run, a.is_given("--words-of"));
    a.clashes("--words-of", &lines, a.is_given("--words-of"));
    a.clashes("--explain", &lines, a.is_given("--explain"));
    a.needs("--follow", "--explain");
}

// Without a line for each entry, what is asked of them is counted at the end, or nowhere.
fn judge_quiet(a: &mut Arguments) {
    a.clashes("--quiet", &["--moments"], a.is_given("--quiet"));
    a.needs_beside("--causes", "--quiet", "--summary");
    a.needs_beside("--losses", "--quiet", "--summary");
    a.needs_beside("--stock", "--quiet", "--summary");
}

fn options_of(a: &Arguments) -> Options {
    Options {
        queue: queue_of(a),
        edition: a.value("--edition").unwrap_or(1),
        narrow: is_narrow(a),
        lent: a.is_given("--lent"),
        quiet: a.is_given("--quiet"),
        causes: a.is_given("--causes"),
        moments: a.is_given("--moments"),
        losses: a.is_given("--losses"),
        stock: a.is_given("--stock"),
        summary: a.is_given("--summary"),
        many: a.is_given("--many"),
        words: a.is_given("--words-of"),
        explain: a.is_given("--explain"),
        follow: a.is_given("--follow"),
        item: a.value("--follow").unwrap_or(0),
        tape: a.is_given("--tape"),
        help: a.is_given("--help") || a.is_given("-h"),
        version: a.is_given("--version"),
        tells_on: if a.is_given("--tell-status") {
            3
        } else {
            a.value("--tell-status-on").unwrap_or(0)
        },
        file: a.name(0),
        wrong: a.is_wrong(),
    }
}

// Says what is wrong, unless help or the version is asked for. Standard input is read where no file is named.
pub fn read(system: &System) -> Options {
    let mut a = text_options::read(system, TABLE, 1);
    a.refuse_dash();
    judge_queue(&mut a);
    judge_words(&mut a);
    judge_quiet(&mut a);
    let o = options_of(&a);
    if o.wrong && !o.help && !o.version {
        a.complain(system, "replay", "");
    }
    o
}

// Answers whether all of it was written.
pub fn help(system: &System) -> bool {
    text_system::streams::put(
        system,
        b"replay [--queue NAME] [--edition N] [--bits N] [--lent] [--quiet] [--causes] [--moments] [--losses]\n\
        \x20      [--stock] [--summary] [--many] [--tape] [FILE]\n\
        replay --words-of [--queue NAME] [--many] [--tape] [FILE]\n\
        replay --explain [--follow ITEM] [--queue NAME] [--edition N] [--bits N] [--lent] [--many] [--tape]\n\
        \x20      [FILE]\n\
        replay --calls [--json] [--queue NAME] [--edition N] [--bits N] [--lent] [--many] [--tape] [FILE]\n\
        \n\
        Runs a schedule on the stamped ring, or on another queue. It is read from FILE, or from standard\n\
        input: unsigned decimal numbers separated by white space. The first is the capacity (1 to 1024), the\n\
        second the number of workers (1 to 16), then come the entries, two numbers each: 16 * worker + code,\n\
        and the item.\n\
        Codes: 0 push, 1 force_push, 2 pop, 3 len, 4 is_empty, 5 is_full, 6 close, 7 is_closed begin a call;\n\
        8 is an act, 9 an act whose weak exchange fails. The item is 0 unless the code is 0 or 1.\n\
        # starts a comment to the end of its line.\n\
        Or in words, where the first thing that is no comment is a letter: lines capacity 2, workers 3 (of\n\
        the other queues workers alone), then an entry or a row of acts each: w0 push 101, w1 pop, w0 act,\n\
        w1 act 4, w0 fail, w0 fail 2. fail is code 9.\n\
        \n\
        \x20 made R                     0, or why there is no machine: 1 capacity, 2 workers, 18 edition\n\
        \x20 PLACE R h=H t=T m=M wN=S   for each entry: its place from 0, refusal or 0, head, tail, meter, its\n\
        \x20                            worker\n\
        \x20 slots (stamp,value) ...    the slots below capacity\n\
        \x20 contents x y ...           or: contents refused N\n\
        \n\
        Refusals: 3 no such worker, 4 busy, 5 idle, 6 no sound machine, 7 meter full, 8 no weak exchange,\n\
        9 unreadable entry (then nothing is run), 11 odd number of words. What is refused is told on\n\
        standard error too, with the line of the file where the entry was written.\n\
        Status: 0 run to its end, 1 refused, 2 the input or the arguments cannot be read, or not all can be\n\
        written.\n\
        \n\
        \x20 --queue single   the one-slot queue (bounded unless told): no capacity, the first number is that\n\
        \x20                  of the workers; lines are PLACE R s=STATE m=M wN=S, and at the end: value V,\n\
        \x20                  contents\n\
        \x20 --queue unbounded   a pool of 64 blocks of 31 slots: no capacity, the same; lines are PLACE R h=H\n\
        \x20                  hb=B t=T tb=B m=M wN=S, and at the end: block B next=N (state,value) .. for each\n\
        \x20                  taken block, contents; code 1 is refusal 9, and 23: no block is free; it has no\n\
        \x20                  --summary\n\
        \x20 --edition 2      the ring whose force_push keeps a close (1 unless told)\n\
        \x20 --bits 16   the ring whose head, tail and stamps have sixteen bits, so that they come round (64\n\
        \x20             unless told)\n\
        \x20 --lent      ring and records are lent for each entry, as a host's are: up to 64 workers; of 64\n\
        \x20             bits, and with no --moments\n\
        \x20 --quiet     no line for each entry, one for the whole\n\
        \x20 --causes    after the worker, where its act goes back to an earlier place, because=LIST: schedule\n\
        \x20             (which made its exchange fail), own-end (moved or marked since its word was loaded or\n\
        \x20             found), other-end (moved since the last stamp load), hand (another worker had a slot\n\
        \x20             in hand at that load)\n\
        \x20 --moments   last on the line of an act that ends its call at=J: a plain queue gives that answer\n\
        \x20             just before entry J; at=J+: directly after entry J\n\
        \x20 --losses    after each entry's worker lost=D,S: the exchanges that its present call, or its last\n\
        \x20             one, lost because the words differed, and by the schedule; - where there is no such\n\
        \x20             worker\n\
        \x20 --stock     at the end of each entry's line stock=N: the items claimed at tail whose value is not\n\
        \x20             yet read out\n\
        \x20 --summary   then counts of acts, answers, claims, refusals and retries; with --causes of each\n\
        \x20             cause, with --losses of lost exchanges\n\
        \x20 --many      several schedules, separated by a line with a single %; a line % follows each output\n\
        \x20 --explain   a line in plain words for each entry, at most 100 columns: claims, the slot in hand,\n\
        \x20             why a worker tries again, answers; at the end who is busy, what waits, how many\n\
        \x20             exchanges were lost. Coloured on a terminal, unless NO_COLOR is set\n\
        \x20 --follow ITEM   with --explain, only the lines of that item's life: from its push to the call that\n\
        \x20             hands it out\n\
        \x20 --calls     a row for each call: its first and last entry, answer, moment, exchanges lost, why it\n\
        \x20             tried again; then what came into a plain queue and went out of it, at which entry\n\
        \x20 --json      the lines, or with --calls the rows, as JSON, an object a line; docs/GUIDE.md has them\n\
        \x20 --words-of  prints the schedule in words, acts in a row gathered, and runs nothing; 9, 11: what no\n\
        \x20             words are for\n\
        \x20 --tape      FILE is a schedule tape (see tape --help); a tape that is refused is told in one line,\n\
        \x20             and nothing is run\n\
        \x20 --version   prints the version\n\
        \x20 -h, --help  prints this\n\
        \n\
        A value may stand behind an = too, as in --bits=16. What follows a word -- is a name.\n",
    )
}
