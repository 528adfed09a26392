// Cases as rows of text: a letter, numbers, a bar after a blank, and a label to the line's end, as `b 10 1 |6 before 9: `. What a letter asks
// for is said by who goes through the rows. Rows in place of calls keep a program's check short.
#![tactic(auto)]

use text_numbers::Scan;

// The most numbers of a row.
pub const NUMBERS: usize = 64;

// The first such byte from there on, or the text's end.
fn find(text: &[u8], from: usize, b: u8) -> usize {
    for i in from..text.len() {
        if text[i] == b {
            return i;
        }
    }
    text.len()
}

// What stands after the byte at `from`, up to the one at `to`.
fn between(text: &[u8], from: usize, to: usize) -> &[u8] {
    if from < to && to <= text.len() {
        return &text[from + 1..to];
    }
    &[]
}

pub fn letter(text: &[u8], at: usize) -> u8 {
    if at < text.len() { text[at] } else { 0 }
}

// The numbers of the row at this place, into the list; how many.
pub fn numbers(text: &[u8], at: usize, list: &mut [u64]) -> usize {
    let digits = between(text, at, find(text, at, b'|'));
    Scan::start(1).read_piece(false, digits, list, 0).count
}

pub fn label(text: &[u8], at: usize) -> &[u8] {
    let bar = find(text, at, b'|');
    between(text, bar, find(text, bar, b'\n'))
}

// Where the next row begins.
pub fn next(text: &[u8], at: usize) -> usize {
    let end = find(text, at, b'\n');
    if end < text.len() { end + 1 } else { end }
}

// The first so many of a list.
pub fn first(list: &[u64], n: usize) -> &[u64] {
    if n <= list.len() {
        return &list[..n];
    }
    list
}

// The n-th of a list; 0 where there is none.
pub fn nth(list: &[u64], n: usize) -> u64 {
    if n < list.len() { list[n] } else { 0 }
}
