// Makings, and contents in a buffer of at most two words, which 77 and 78 mark.
use crate::build::NUMBERS;
use single_machine::Machine;
use text_output::Text;
use text_system::System;

// w0=PLACE w15=PLACE
fn first_and_last(text: &mut Text, m: Machine) {
    single_text::text::stands(text, 0, 16, single_text::place_of(m, 0));
    text.byte(b' ');
    single_text::text::stands(text, 15, 16, single_text::place_of(m, 15));
}

// made W: REFUSAL s=STATE m=M value V workers W w0=PLACE w15=PLACE
pub fn make(system: &System, workers: u64) {
    let mut room = [0u8; 512];
    let mut text = Text::new(&mut room);
    let d = single::make(workers);
    text.form("made #: # ", &[workers, d.refusal]);
    text.form(
        "s=# m=# value # workers # ",
        &single_text::numbers(d.machine),
    );
    first_and_last(&mut text, d.machine);
    text.end_line(system);
}

fn told(text: &mut Text, t: Result<u64, u64>) {
    match t {
        Ok(n) => text.number(n),
        Err(r) => text.form("refused #", &[r]),
    }
}

// LABEL: TOLD, and what stands where 77 and 78 stood
fn line(system: &System, label: &[u8], t: Result<u64, u64>, marks: &[u64]) {
    let mut room = [0u8; 512];
    let mut text = Text::new(&mut room);
    text.bytes(label);
    text.text(": ");
    told(&mut text, t);
    text.form(", # #", marks);
    text.end_line(system);
}

pub fn contents(system: &System, label: &[u8], h: [u64; NUMBERS], n: u64) {
    let mut buffer = [77u64, 78];
    if n <= 2 {
        let t = single::contents(crate::build::machine(h), &mut buffer[..n as usize]);
        line(system, label, t, &buffer);
    }
}
