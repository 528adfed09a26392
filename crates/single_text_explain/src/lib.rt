// The lines of the one-slot queue in plain words, by names and numbers: no machine in hand. docs/GUIDE.md has the table of the sentences.
#![tactic(auto)]

pub mod acts;
pub mod lines;
pub mod notes;

use single_text::code::Coded;

// What an entry is told by: the state word, and where its worker stands.
#[derive(Clone, Copy)]
pub struct Seen {
    pub state: u64,
    pub stood: Coded,
}

// An entry that was run: its place and its two numbers; the state word, and where its worker stands, before it and after it.
#[derive(Clone, Copy)]
pub struct Entered {
    pub place: u64,
    pub first: u64,
    pub second: u64,
    pub was: u64,
    pub state: u64,
    pub before: Coded,
    pub after: Coded,
}

pub fn entry(place: u64, first: u64, second: u64, before: Seen, after: Seen) -> Entered {
    Entered {
        place,
        first,
        second,
        was: before.state,
        state: after.state,
        before: before.stood,
        after: after.stood,
    }
}
