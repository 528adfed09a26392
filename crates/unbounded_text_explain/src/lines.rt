// The lines of a run: of its making, and of each entry.
use crate::notes::Notes;
use crate::{Entered, acts, notes, stood};
use text_explain::columns;
use text_explain::columns::Tells;
use text_output::Text;
use text_sentences::Key;
use text_system::System;
use unbounded_text_places::code::Case;

// A claim of an item that is followed has its lap.
fn with_lap(line: &mut Text, follows: bool, e: Entered) {
    if !follows {
        return;
    }
    if notes::is_tail_claim(e) {
        with_lap_of(line, e.before.words[1]);
    } else if notes::is_head_claim(e) {
        with_lap_of(line, e.before.words[0]);
    }
}

fn with_lap_of(line: &mut Text, word: u64) {
    let mut room = [0u8; 64];
    let mut lap = Text::new(&mut room);
    lap.form("(lap #)", &[word / 2 / unbounded_words::LAP]);
    columns::at_right(line, &lap);
}

fn entry_line(line: &mut Text, key: Key, follows: bool, e: Entered, n: Notes) {
    columns::number(line, e.place);
    columns::worker(line, e.first / 16);
    let from = line.len();
    stood::name(line, e.before.case);
    columns::behind_place(line, from);
    if e.before.case == Case::Idle {
        return text_explain::words::begin(line, e.first, e.second);
    }
    acts::act(line, key, e, n.tails, n.heads);
    with_lap(line, follows, e);
}

fn tells(e: Entered, is_back: bool) -> Tells {
    if is_back {
        return Tells::Again;
    }
    if notes::is_tail_claim(e) || notes::is_head_claim(e) {
        return Tells::Claim;
    }
    if e.after.case == Case::Idle {
        return Tells::Answer;
    }
    Tells::Plain
}

// Of an entry that was accepted, by what was noted before it.
pub fn told(system: &System, text: &mut Text, colours: bool, follows: bool, e: Entered, n: Notes) {
    let mut room = [0u8; columns::WIDE];
    let mut line = Text::new(&mut room);
    let mut cause_room = [0u8; 64];
    let mut cause = Text::new(&mut cause_room);
    let key = acts::key(e);
    acts::cause(&mut cause, key);
    let is_back = cause.len() != 0;
    entry_line(&mut line, key, follows, e, n);
    if is_back {
        columns::at_right(&mut line, &cause);
    }
    columns::put(system, text, &line, colours, tells(e, is_back));
}

const MAKINGS: &[(u64, &str)] = &[
    (0, "made: an unbounded queue, #a workers"),
    (2, "refused 2: the number of workers, #a, is not 1 to 16"),
];

// Of the making with so many workers.
pub fn made(system: &System, text: &mut Text, colours: bool, refusal: u64, workers: u64) {
    text_explain::words::made(system, text, colours, MAKINGS, refusal, &[workers]);
}
