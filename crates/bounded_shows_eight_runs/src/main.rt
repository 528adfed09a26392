// Document 01's eight runs, A to H, on the compiled code. The file `stdout` is written from the documents. Cases are rows (text_cases):
//
//     A C         the constants of a ring of capacity C
//     B F S ..    a schedule on a ring of capacity 2
//     o C W E     a machine of capacity C, with W workers, of edition E
//     c W K I N   worker W begins the call of code K with the item I, and does N acts; with code 8 it begins none
//     d W K I N   the same, told in its first line alone
//     H C W       a making
#![tactic(auto)]

use bounded_machine::Tally;
use bounded_places::Place;
use bounded_text_faces::Call;
use bounded_text_words::WORDS;
use bounded_words::Claim;
use text_cases::nth;
use text_output::Text;
use text_system::System;

fn place_of(m: [u64; WORDS], w: u64) -> Place {
    let code = bounded_text_words::record(m, w, 0);
    let first = bounded_text_words::record(m, w, 1);
    bounded_codes::place_in(code, first, bounded_text_words::record(m, w, 2))
}

// The tally after an entry: counted on where it was an act.
fn counted(t: Tally, before: [u64; WORDS], after: [u64; WORDS], first: u64) -> Tally {
    if first % 16 < 8 {
        return t;
    }
    bounded_stock::tally(t, place_of(before, first / 16), place_of(after, first / 16))
}

fn word(worker: u64, code: u64) -> u64 {
    16 * (worker % 16) + code % 16
}

// A machine under way, with what is counted from its history and the acts of the last call.
#[derive(Clone, Copy)]
struct Scene {
    words: [u64; WORDS],
    tally: Tally,
    acts: u64,
    refusal: u64,
}

impl Scene {
    fn open(capacity: u64, workers: u64, edition: u64) -> Scene {
        let made = bounded_text_faces::make(capacity, workers, edition);
        let words = made.words;
        Scene {
            words,
            tally: Tally {
                tail: Claim(0),
                head: Claim(0),
                reads: 0,
            },
            acts: 0,
            refusal: made.refusal,
        }
    }

    fn entry(self, first: u64, second: u64, acts: u64) -> Scene {
        let left = bounded_text_faces::enter(Call::Step, self.words, first, second);
        let words = left.words;
        Scene {
            words,
            tally: counted(self.tally, self.words, words, first),
            acts,
            refusal: left.refusal,
        }
    }

    // As many acts of one worker.
    fn go_on(self, worker: u64, acts: u64) -> Scene {
        let mut now = self;
        for i in 0..acts {
            now = now.entry(word(worker, 8), 0, i + 1);
        }
        now
    }

    fn call(self, worker: u64, code: u64, item: u64, acts: u64) -> Scene {
        if code == 8 {
            return self.go_on(worker, acts);
        }
        self.entry(word(worker, code), item, 0).go_on(worker, acts)
    }
}

// LABEL: ACTS acts, refusal R, h=H t=T m=M wN=PLACE
fn say(system: &System, label: &[u8], s: Scene, worker: u64) {
    let mut room = [0u8; 512];
    let mut text = Text::new(&mut room);
    text.bytes(label);
    text.form(": # acts, refusal #, ", &[s.acts, s.refusal]);
    bounded_text_words::text::standing(&mut text, worker, s.words);
    text.end_line(system);
}

fn say_claims(system: &System, t: Tally) {
    let claims = [t.tail.0, t.head.0, bounded_stock::stock(t)];
    text_output::say(system, "tail claims=# head claims=# stock=#\n", &claims);
}

fn called(system: &System, s: Scene, n: &[u64], label: &[u8], all: bool) -> Scene {
    let after = s.call(nth(n, 0), nth(n, 1), nth(n, 2), nth(n, 3));
    say(system, label, after, nth(n, 0));
    if all {
        bounded_text_answers::entry::slots(system, after.words);
        say_claims(system, after.tally);
    }
    after
}

fn constants(system: &System, capacity: u64) {
    let m = bounded_text_faces::make(capacity, 1, 1).words;
    let numbers = [
        capacity,
        m[bounded_text_words::MARK],
        m[bounded_text_words::LAP],
    ];
    text_output::say(system, "A capacity #: mark and lap # #\n", &numbers);
}

// By the document's own words, as one schedule; with lost=D,S, of worker 0 (document 02, item 8).
fn whole(system: &System, schedule: &[u64]) {
    let mut room = [0u8; 512];
    let mut text = Text::new(&mut room);
    let fresh = bounded_text_faces::make(2, 1, 1).words;
    let left = bounded_text_faces::run(fresh, schedule);
    let m = left.words;
    text.text("B as one schedule: ");
    bounded_text_words::text::entry(&mut text, left.place, left.refusal, 0, m);
    let lost = [
        bounded_text_words::record(m, 0, 3),
        bounded_text_words::record(m, 0, 4),
    ];
    text.form(" lost=#,#", &lost);
    text.end_line(system);
    bounded_text_answers::entry::slots(system, m);
}

// H CAPACITY WORKERS: REFUSAL, and the numbers of workers and slots that came of it.
fn making(system: &System, capacity: u64, workers: u64) {
    let made = bounded_text_faces::make(capacity, workers, 1);
    let numbers = [
        capacity,
        workers,
        made.refusal,
        made.words[bounded_text_words::CAPACITY],
        made.words[bounded_text_words::COUNT],
    ];
    text_output::say(system, "H make # #: # capacity=# workers=#\n", &numbers);
}

// The rows that need no scene.
fn tell(system: &System, letter: u8, n: &[u64]) {
    match letter {
        b'A' => constants(system, nth(n, 0)),
        b'B' => whole(system, n),
        b'H' => making(system, nth(n, 0), nth(n, 1)),
        _ => {}
    }
}

fn after(system: &System, s: Scene, letter: u8, n: &[u64], label: &[u8]) -> Scene {
    match letter {
        b'o' => Scene::open(nth(n, 0), nth(n, 1), nth(n, 2)),
        b'c' => called(system, s, n, label, true),
        b'd' => called(system, s, n, label, false),
        _ => s,
    }
}

fn turn(system: &System, s: Scene, cases: &[u8], at: usize) -> Scene {
    let mut list = [0u64; text_cases::NUMBERS];
    let count = text_cases::numbers(cases, at, &mut list);
    let letter = text_cases::letter(cases, at);
    let n = text_cases::first(&list, count);
    tell(system, letter, n);
    after(system, s, letter, n, text_cases::label(cases, at))
}

fn play(system: &System, begin: Scene, rows: &str) {
    let cases = rows.as_bytes();
    let mut s = begin;
    let mut at = 0;
    for _ in 0..cases.len() {
        if cases.len() <= at {
            break;
        }
        s = turn(system, s, cases, at);
        at = text_cases::next(cases, at);
    }
}

fn run_f(system: &System, edition: u64) {
    play(
        system,
        Scene::open(1, 2, edition),
        "c 0 0 7 5 |F push 7\n\
        c 0 1 8 2 |F force_push 8, P1 and P2\n\
        c 1 6 0 1 |F close\n\
        c 0 8 0 4 |F force_push 8, to its end\n\
        c 1 7 0 1 |F is_closed\n",
    );
}

fn main(rt: HostRuntime) {
    let system = text_system::of(rt);
    let none = Scene::open(0, 0, 0);
    play(
        &system,
        none,
        "A 1 |\n\
        A 2 |\n\
        A 3 |\n\
        A 4 |\n\
        A 255 |\n\
        A 256 |\n\
        A 1024 |\n\
        B 0 5 8 0 8 0 8 0 8 0 8 0 |\n\
        o 2 1 1 |\n\
        c 0 0 5 5 |B push 5\n\
        c 0 0 6 5 |C push 6\n\
        c 0 2 0 5 |C pop\n\
        c 0 0 7 5 |C push 7\n\
        c 0 0 8 3 |C push 8\n\
        c 0 1 8 6 |D force_push 8\n\
        c 0 6 0 1 |E close\n\
        c 0 0 9 1 |E push 9\n\
        c 0 2 0 5 |E pop\n\
        c 0 2 0 5 |E pop\n\
        c 0 2 0 3 |E pop\n",
    );
    run_f(&system, 1);
    text_output::say(&system, "F in edition 2:\n", &[]);
    run_f(&system, 2);
    play(
        &system,
        Scene::open(1, 2, 1),
        "c 0 0 7 5 |G push 7\n\
        c 0 1 8 3 |G force_push 8, before F7\n\
        c 1 3 0 3 |G len\n\
        c 1 4 0 2 |G is_empty\n\
        d 1 2 0 0 |G pop begun\n\
        d 1 8 0 1 |G pop\n\
        d 1 8 0 1 |G pop\n",
    );
    play(
        &system,
        none,
        "H 0 1 |\n\
        H 1025 1 |\n\
        H 1 1 |\n\
        H 1024 1 |\n\
        H 1 0 |\n\
        H 1 17 |\n\
        H 1 1 |\n\
        H 1 16 |\n",
    );
}
