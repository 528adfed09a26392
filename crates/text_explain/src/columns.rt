// The columns of a line: the entry's number, its worker, the place, what happened, and why a worker tries again. A line has room for 100 bytes; more is left out.
use text_output::Text;
use text_system::System;

pub const WIDE: usize = 100;

// Where the cause of a retry ends, if there is room before it.
const CAUSE_END: usize = 80;

fn to_column(text: &mut Text, column: usize) {
    text.spaces(column.saturating_sub(text.len()));
}

// The entry's number, up to the sixth column or past it.
pub fn number(line: &mut Text, n: u64) {
    let mut room = [0u8; 24];
    let mut digits = Text::new(&mut room);
    digits.number(n);
    line.spaces(6usize.saturating_sub(digits.len()));
    line.bytes(digits.as_bytes());
}

// Its worker, in a column of three.
pub fn worker(line: &mut Text, w: u64) {
    let from = line.len();
    line.form("  w#", &[w]);
    to_column(line, from.saturating_add(6));
}

// The longest name of a place, isclosed1, leaves all behind it in their column.
const PLACE: usize = 9;

// One more space behind a place whose column begins here.
pub fn behind_place(line: &mut Text, from: usize) {
    to_column(line, from.saturating_add(PLACE));
    line.byte(b' ');
}

// A cause that holds, after a comma unless it is the first behind its bracket.
pub fn cause_if(text: &mut Text, it: bool, name: &str) {
    if !it {
        return;
    }
    if 1 < text.len() {
        text.text(", ");
    }
    text.text(name);
}

// At the line's right: a text, as the cause of a retry.
pub fn at_right(line: &mut Text, text: &Text) {
    line.text("  ");
    to_column(line, CAUSE_END.saturating_sub(text.len()));
    line.bytes(text.as_bytes());
}

// What a line tells, by which it is coloured.
#[derive(Clone, Copy, PartialEq, Eq)]
pub enum Tells {
    Plain,
    Refused,
    CloseLost,
    Claim,
    Again,
    Answer,
}

impl Tells {
    fn colour(self) -> u64 {
        match self {
            Tells::Plain => 0,
            Tells::Refused | Tells::CloseLost => 31,
            Tells::Claim => 32,
            Tells::Again => 33,
            Tells::Answer => 1,
        }
    }
}

fn colour(text: &mut Text, of: Tells) {
    text.form("\x1b[#m", &[of.colour()]);
}

// The line goes to the text.
pub fn put(system: &System, text: &mut Text, line: &Text, colours: bool, of: Tells) {
    if colours && of != Tells::Plain {
        colour(text, of);
        text.bytes(line.as_bytes());
        colour(text, Tells::Plain);
    } else {
        text.bytes(line.as_bytes());
    }
    text.byte(b'\n');
    text.settle(system);
}
