// contents, in a buffer of at most three words or of some thousand, each marked by 77.
use bounded_text_words::WORDS;
use text_output::Text;
use text_system::System;

fn say_contents(text: &mut Text, label: &[u8], t: Result<u64, u64>) {
    text.bytes(label);
    text.text(": ");
    crate::judge::say_told(text, t);
}

// LABEL: REFUSAL or ok COUNT, then the buffer
fn say(system: &System, label: &[u8], t: Result<u64, u64>, buffer: &[u64]) {
    let mut room = [0u8; 512];
    let mut text = Text::new(&mut room);
    say_contents(&mut text, label, t);
    let whole = Ok(buffer.len() as u64);
    bounded_text_words::text::told(system, &mut text, ", buffer", buffer, whole);
    text.flush(system);
}

// LABEL: REFUSAL or ok COUNT, then the buffer's first word, its 1,023rd and its last
fn say_many(system: &System, label: &[u8], t: Result<u64, u64>, buffer: &[u64]) {
    let n = buffer.len();
    if 1023 <= n {
        let mut room = [0u8; 512];
        let mut text = Text::new(&mut room);
        say_contents(&mut text, label, t);
        let numbers = [buffer[0], buffer[1022], buffer[n - 1]];
        text.form(" first=# 1023rd=# last=#", &numbers);
        text.end_line(system);
    }
}

pub fn told(system: &System, label: &[u8], m: [u64; WORDS], n: u64) {
    let size = match n {
        0..=2 | 1023..=1025 => n as usize,
        _ => 3,
    };
    let mut room = [77u64; 1025];
    let buffer = &mut room[..size];
    let t = bounded_text_faces::contents(m, buffer);
    if size <= 3 {
        say(system, label, t, buffer);
    } else {
        say_many(system, label, t, buffer);
    }
}
