// The lines of the unbounded queue in plain words, by names and numbers: no machine in hand. docs/GUIDE.md has the table of the sentences.
#![tactic(auto)]

pub mod acts;
pub mod ends;
pub mod lines;
pub mod notes;
pub mod stood;

use unbounded_text_places::code::Coded;

// What an entry is told by: head's and tail's index words and tail's block, and where its worker stands.
#[derive(Clone, Copy)]
pub struct Seen {
    pub ends: [u64; 3],
    pub stood: Coded,
}

// An entry that was run: its place and its two numbers; what was seen before it and after it.
#[derive(Clone, Copy)]
pub struct Entered {
    pub place: u64,
    pub first: u64,
    pub second: u64,
    pub was: [u64; 3],
    pub ends: [u64; 3],
    pub before: Coded,
    pub after: Coded,
}

pub fn entry(place: u64, first: u64, second: u64, before: Seen, after: Seen) -> Entered {
    // An array goes from one struct to another by a variable: the borrow check covers no other form.
    let was = before.ends;
    let ends = after.ends;
    Entered {
        place,
        first,
        second,
        was,
        ends,
        before: before.stood,
        after: after.stood,
    }
}
