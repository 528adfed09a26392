// The lines of a run: of its making, and of each entry.
use crate::notes::Notes;
use crate::{Entered, acts, notes};
use single_text::code::Case;
use text_explain::columns;
use text_explain::columns::Tells;
use text_output::Text;
use text_system::System;

fn with_causes(line: &mut Text, e: Entered) {
    if !notes::is_back(e) {
        return;
    }
    let mut room = [0u8; 64];
    let mut causes = Text::new(&mut room);
    let found = e.was - e.was % 2;
    causes.byte(b'(');
    columns::cause_if(
        &mut causes,
        found != acts::expected(e.before),
        "state differs",
    );
    columns::cause_if(&mut causes, e.was % 2 == 1, "slot in hand");
    causes.byte(b')');
    columns::at_right(line, &causes);
}

fn entry_line(line: &mut Text, e: Entered, n: Notes) {
    columns::number(line, e.place);
    columns::worker(line, e.first / 16);
    let from = line.len();
    acts::name(line, e.before.case);
    columns::behind_place(line, from);
    if e.before.case == Case::Idle {
        return text_explain::words::begin(line, e.first, e.second);
    }
    acts::act(line, e, n);
    with_causes(line, e);
}

fn tells(e: Entered) -> Tells {
    if notes::is_back(e) {
        return Tells::Again;
    }
    if notes::is_put(e) || notes::is_taken(e) {
        return Tells::Claim;
    }
    if e.after.case == Case::Idle {
        return Tells::Answer;
    }
    Tells::Plain
}

// Of an entry that was accepted, by what was noted before it.
pub fn told(system: &System, text: &mut Text, colours: bool, e: Entered, n: Notes) {
    let mut room = [0u8; columns::WIDE];
    let mut line = Text::new(&mut room);
    entry_line(&mut line, e, n);
    columns::put(system, text, &line, colours, tells(e));
}

const MAKINGS: &[(u64, &str)] = &[
    (0, "made: a one-slot queue, #a workers"),
    (2, "refused 2: the number of workers, #a, is not 1 to 16"),
];

// Of the making with so many workers.
pub fn made(system: &System, text: &mut Text, colours: bool, refusal: u64, workers: u64) {
    text_explain::words::made(system, text, colours, MAKINGS, refusal, &[workers]);
}
