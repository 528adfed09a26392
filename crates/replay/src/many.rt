// One schedule, or one after another: each is read once to see that it can be run, and once more to run it.
use replay_input::source::{Ended, Reading, Start};
use replay_many::{DONE, Next, REFUSED, UNREADABLE};
use replay_options::Options;
use replay_survey::{Played, Survey, Whole};
use std::fs::File;
use text_output::Text;
use text_system::System;

fn surveyed(system: &System, o: Options, file: &File, from: Start) -> Survey {
    replay_survey::surveyed(
        system,
        file,
        o.many,
        crate::queue::before(o),
        crate::queue::barred(o),
        o.tape,
        from,
    )
}

// Of a schedule that is told in words: what there are none for is said.
fn said_of_words(system: &System, o: Options, s: &Survey) -> u8 {
    let whole = s.refused_whole();
    if o.words && whole.refusal != 0 {
        tape_files::say::refused_schedule(system, whole.refusal, whole.place, 0, 0);
        return REFUSED;
    }
    DONE
}

// Says what is wrong, and answers the status.
fn said(system: &System, o: Options, s: &Survey, file: &File, name: &[u8]) -> u8 {
    if s.reading.ended == Some(Ended::Refused)
        && let Some(p) = s.reading.tape
    {
        tape_files::say::refused_tape(system, p.number, p.byte);
        return REFUSED;
    }
    if s.is_sound(system, file, o.many, name) {
        said_of_words(system, o, s)
    } else {
        UNREADABLE
    }
}

// Read once, and not run.
fn look(system: &System, o: Options, file: &File, name: &[u8], n: Next) -> Next {
    let s = surveyed(system, o, file, n.from);
    let status = said(system, o, &s, file, name);
    if status == DONE {
        Next::after(&s, n.status)
    } else {
        Next::stop(status)
    }
}

fn one(system: &System, o: Options, file: &File, name: &[u8], n: Next, text: &mut Text) -> Next {
    let s = surveyed(system, o, file, n.from);
    let status = said(system, o, &s, file, name);
    if status != DONE {
        return Next::stop(status);
    }
    let begun = Reading::begun(o.tape, n.from, crate::queue::before(o), s.reading.sum_of());
    let whole = s.refused_whole();
    let played = crate::queue::play(system, o, file, begun, whole, text);
    if !replay_input::say::is_read(system, "replay", name, text) {
        return Next::stop(UNREADABLE);
    }
    if played.refused {
        tell_refused(system, o, file, name, begun, whole, &played, text);
    }
    Next::after(&s, replay_many::worse(n.status, played.refused)).unless_lost(text)
}

// What is refused is told on standard error too, behind what was printed so far; of many the lines follow as they come.
fn tell_refused(
    system: &System,
    o: Options,
    file: &File,
    name: &[u8],
    begun: Reading,
    whole: Whole,
    p: &Played,
    text: &mut Text,
) {
    if !o.many {
        text.flush(system);
    }
    if !text.is_lost() {
        let before = crate::queue::before(o);
        replay_refusals::tell(
            system, name, file, o.many, begun, whole, p, before, o.edition,
        );
    }
}

// Of many, each is read before the first is run, so that nothing is written where one cannot be read.
fn look_in(system: &System, o: Options, file: &File, name: &[u8]) -> Next {
    replay_many::each(
        system,
        "replay",
        name,
        file,
        |n| look(system, o, file, name, n),
    )
}

fn run_in(system: &System, o: Options, file: &File, name: &[u8], text: &mut Text) -> Next {
    replay_many::each(
        system,
        "replay",
        name,
        file,
        |n| one(system, o, file, name, n, text),
    )
}

fn run_looked(system: &System, o: Options, file: &File, name: &[u8], text: &mut Text) -> u8 {
    let looked = look_in(system, o, file, name);
    if looked.status != DONE {
        return looked.status;
    }
    let n = run_in(system, o, file, name, text);
    n.written_as_looked(system, "replay", name, &looked, text)
}

pub fn run_all(system: &System, o: Options, file: &File, name: &[u8]) -> u8 {
    let mut room = [0u8; 65536];
    let mut text = Text::new(&mut room);
    if o.many {
        return run_looked(system, o, file, name, &mut text);
    }
    let n = run_in(system, o, file, name, &mut text);
    n.written(system, "replay", &mut text)
}
