// The lines of a run of the ring: of each entry, of the making.
use crate::notes;
use crate::notes::Notes;
use bounded_causes::Causes;
use bounded_places::Place;
use bounded_text_explain::acts;
use bounded_text_explain::acts::Entered;
use replay_explain::Explained;
use text_explain::columns::Tells;
use text_explain::{columns, words};
use text_output::Text;
use text_system::System;

fn with_causes(line: &mut Text, c: Causes) {
    let mut room = [0u8; 64];
    let mut text = Text::new(&mut room);
    text.byte(b'(');
    columns::cause_if(&mut text, c.schedule, "schedule");
    if c.own && c.other {
        columns::cause_if(&mut text, true, "both ends moved");
    } else {
        columns::cause_if(&mut text, c.own, "own end moved");
        columns::cause_if(&mut text, c.other, "other end moved");
    }
    columns::cause_if(&mut text, c.hand, "slot in hand");
    let is_any = c.schedule || c.own || c.other || c.hand;
    columns::cause_if(&mut text, !is_any, "no cause");
    text.byte(b')');
    columns::at_right(line, &text);
}

// The lap of a claim, in a ring of this capacity.
fn with_lap(line: &mut Text, claim: u64, capacity: u64) {
    if capacity != 0 {
        let mut room = [0u8; 64];
        let mut text = Text::new(&mut room);
        text.form("(lap #)", &[claim / capacity]);
        columns::at_right(line, &text);
    }
}

// A claim of an item that is followed has its lap.
fn lap_of(line: &mut Text, e: &Entered, seen: &Notes) {
    let stood = notes::stood(e);
    let stands = notes::stands(e);
    if notes::is_tail_claim(stood, stands) {
        with_lap(line, seen.claims.tail, e.ring[2]);
    } else if notes::is_head_claim(stood, stands) {
        with_lap(line, seen.claims.head, e.ring[2]);
    }
}

fn entry_line(line: &mut Text, how: Explained, e: &Entered, seen: &Notes, causes: Option<Causes>) {
    columns::number(line, e.place);
    columns::worker(line, e.first / 16);
    let from = line.len();
    acts::place(line, e.before[0]);
    columns::behind_place(line, from);
    if e.first % 16 < 8 {
        return words::begin(line, e.first, e.second);
    }
    acts::act(line, *e, seen.claims);
    if how.follows.is_some() {
        lap_of(line, e, seen);
    }
    if let Some(c) = causes {
        with_causes(line, c);
    }
}

fn colour_of(e: &Entered, causes: Option<Causes>) -> Tells {
    let stood = notes::stood(e);
    let stands = notes::stands(e);
    if causes.is_some() {
        Tells::Again
    } else if e.first % 16 < 8 {
        Tells::Plain
    } else if acts::is_close_lost(*e) {
        Tells::CloseLost
    } else if notes::is_tail_claim(stood, stands) || notes::is_head_claim(stood, stands) {
        Tells::Claim
    } else if matches!(stands, Place::Idle(_)) {
        Tells::Answer
    } else {
        Tells::Plain
    }
}

// Of an entry that was accepted, by what was noted before it, and why it goes back, where it does.
pub fn told(
    system: &System,
    how: Explained,
    text: &mut Text,
    e: &Entered,
    seen: &Notes,
    causes: Option<Causes>,
) {
    let mut room = [0u8; columns::WIDE];
    let mut line = Text::new(&mut room);
    entry_line(&mut line, how, e, seen, causes);
    columns::put(system, text, &line, how.colours, colour_of(e, causes));
}

const MADE: &[(u64, &str)] = &[
    (0, "made: a ring of capacity #a, #b workers, edition #c"),
    (1, "refused 1: the capacity #a is not 1 to 1024"),
    (
        2,
        "refused 2: the number of workers, #b, is not 1 to 16 (lent: to 64)",
    ),
    (18, "refused 18: there is no edition #c"),
];

// Of the making with this capacity, so many workers and this edition.
pub fn made(system: &System, text: &mut Text, colours: bool, refusal: u64, asked: [u64; 3]) {
    words::made(system, text, colours, MADE, refusal, &asked);
}
