// A tape piece by piece, as the text of its schedule that replay reads, in numbers or in words.
#![tactic(auto)]

use replay_input::source::{Reading, Start};
use std::fs::File;
use tape_pieces::{Piece, State};
use text_output::Text;
use text_sums::Sum;
use text_system::System;
use text_system::files::Flow;

fn is_written(system: &System, text: &Text) -> bool {
    replay_input::say::is_written(system, "tape", !text.is_lost())
}

// Where there is so much of the text it is written.
const MUCH: usize = 65000;

// A line for each entry, behind the first line of the first piece, if there is one; says where not all could be written, and answers whether all was. The first line is
// written by itself, so that who reads no more than that has it before the others come.
fn put_piece(system: &System, text: &mut Text, p: Piece, is_first: bool, words: &[u64]) -> bool {
    if is_first {
        if matches!(p.state, State::Refused | State::Failed) {
            return true;
        }
        text.form("# #\n", &[p.capacity, p.workers]);
        text.flush(system);
        if !is_written(system, text) {
            return false;
        }
    }
    let (pairs, _) = words[..p.count.min(words.len())].as_chunks::<2>();
    for pair in pairs {
        text.form("# #\n", pair);
        if MUCH <= text.len() {
            text.flush(system);
        }
    }
    text.flush(system);
    is_written(system, text)
}

// To its end, with its text to standard output where that is wanted; none where that could not be written, which was said.
fn read(system: &System, from: &File, wanted: bool) -> Option<Piece> {
    let mut window = [0u8; tape_pieces::WINDOW];
    let mut words = [0u64; tape_pieces::WORDS];
    let mut room = [0u8; 65536];
    let mut text = Text::new(&mut room);
    text_system::files::rewind(system, from);
    let mut p = Piece::start();
    for _ in 0..u64::MAX {
        if !p.goes_on() {
            break;
        }
        let is_first = p.state == State::New;
        p.next(system, from, &mut window, &mut words);
        if wanted && !put_piece(system, &mut text, p, is_first, &words) {
            return None;
        }
    }
    Some(p)
}

fn status_of(system: &System, p: Piece, name: &[u8]) -> u8 {
    match p.state {
        State::Done => 0,
        State::Refused => {
            tape_files::say::refused_tape(system, p.number, p.byte);
            1
        }
        State::Failed => {
            replay_input::say::fail(system, "tape", name);
            2
        }
        State::New | State::Going => 2,
    }
}

fn told_in_words(system: &System, from: &File, name: &[u8], due: Sum) -> u8 {
    let mut room = [0u8; 65536];
    let mut text = Text::new(&mut room);
    let begun = Reading::begun(true, Start::of_file(), 0, due);
    replay_words::tell(system, from, false, begun, 0, &mut text);
    if !replay_input::say::is_read(system, "tape", name, &text) {
        return 2;
    }
    text.flush(system);
    if is_written(system, &text) { 0 } else { 2 }
}

// Of a tape that was judged before and came to this sum.
fn status_again(system: &System, p: Piece, name: &[u8], due: Sum) -> u8 {
    if p.state == State::Failed || p.sum == due {
        return status_of(system, p, name);
    }
    replay_input::say::changed(system, "tape", name);
    2
}

// Read once to judge it, and once more to write its text, so that nothing is written of a tape that is refused.
fn judged_first(system: &System, from: &File, name: &[u8], words: bool) -> u8 {
    let Some(judged) = read(system, from, false) else {
        return 2;
    };
    let status = status_of(system, judged, name);
    if status != 0 {
        return status;
    }
    if words {
        return told_in_words(system, from, name, judged.sum);
    }
    match read(system, from, true) {
        Some(p) => status_again(system, p, name, judged.sum),
        None => 2,
    }
}

// The text to standard output; answers the status.
pub fn run(system: &System, from: Flow, name: &[u8], words: bool) -> u8 {
    match replay_input::source::kept(system, "tape", from, name) {
        Some(kept) => {
            let status = judged_first(system, &kept, name, words);
            replay_input::source::release(kept);
            status
        }
        None => 2,
    }
}
