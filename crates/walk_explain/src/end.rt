// How each worker ended, a line each: its answer, or where it stands where its call is still under way.
use bounded_places::Place;
use bounded_text_words::WORDS;
use std::fmt::Write;
use text_output::{Text, put};
use walk_ends::{End, Ends};

// By their codes (bounded_codes).
const ANSWERS: [&str; 11] = [
    "no call",
    "pushed",
    "empty",
    "closed",
    "yes",
    "no",
    "full, # not pushed",
    "closed, # not pushed",
    "displaced #",
    "popped #",
    "len #",
];

// Of a place's text only the name, without what it holds.
fn name(text: &mut Text, code: u64) {
    let mut room = [0; 32];
    let mut whole = Text::new(&mut room);
    bounded_text_codes::place(&mut whole, code, 0, 0);
    let whole = whole.as_bytes();
    let end = whole.iter().position(|b| matches!(*b, b':' | b'('));
    text.bytes(&whole[..end.unwrap_or(whole.len())]);
}

// Of a place between a won exchange and the last store to its slot, which is the slot of the word held there.
fn hand(text: &mut Text, place: Place, mark: u64) {
    match place {
        Place::P4(t, _)
        | Place::P5(t)
        | Place::F7(t, _)
        | Place::F8(t, _)
        | Place::F9(t, _)
        | Place::O4(t)
        | Place::O5(t, _)
            if mark != 0 => {
            put!(text, ", slot {} in its hand", t.0 % mark);
        }
        _ => {}
    }
}

fn busy(text: &mut Text, w: u64, m: [u64; WORDS]) {
    let code = bounded_text_words::record(m, w, 0);
    let first = bounded_text_words::record(m, w, 1);
    let second = bounded_text_words::record(m, w, 2);
    text.text("busy, here at ");
    name(text, code);
    let place = bounded_codes::place_in(code, first, second);
    hand(text, place, m[bounded_text_words::MARK]);
}

// Of the way to end that has these ends, and of the machine that the way which is told leaves.
pub fn lines(text: &mut Text, ends: Ends, m: [u64; WORDS]) {
    for (w, end) in ends.iter().enumerate() {
        let Some(end) = end else {
            continue;
        };
        put!(text, "#   w{w}  ");
        match *end {
            End::Busy => busy(text, w as u64, m),
            End::Idle(code, item) => text.nth(&ANSWERS, code as usize, &[item]),
        }
        text.byte(b'\n');
    }
}
