// The state word of the one-slot queue: src/single.rs, `LOCKED`, `PUSHED` and `CLOSED`, and what the source makes of a word.
#![tactic(auto)]

ghost use Rattle.std.specs.Prelude.{◌≡◌};
ghost use Rattle.single_words.specs.Words.{pushed_in, closed_in, unlocked, taken_of, closed_of_word};

// A word of `state`. An item is another kind of number.
#[derive(Clone, Copy, PartialEq, Eq)]
pub struct State(pub u64);

// A worker has the slot in hand.
pub const LOCKED: u64 = 1;

// The slot has an item, or is to have it.
pub const PUSHED: u64 = 2;

// The queue is closed.
pub const CLOSED: u64 = 4;

// The highest word of the three bits and no other.
pub const STATES: u64 = 7;

// `w & PUSHED != 0`
pub fn pushed(w: State) -> bool
    ensures { result ≡ pushed_in w }
{
    w.0 & PUSHED != 0
}

// `w & CLOSED != 0`
pub fn closed(w: State) -> bool
    ensures { result ≡ closed_in w }
{
    w.0 & CLOSED != 0
}

// `w & !LOCKED`
pub fn unlocked(w: State) -> State
    ensures { result ≡ unlocked w }
{
    State(w.0 & !LOCKED)
}

// `(w | LOCKED) & !PUSHED`
pub fn taken(w: State) -> State
    ensures { result ≡ taken_of w }
{
    State((w.0 | LOCKED) & !PUSHED)
}

// `w | CLOSED`
pub fn with_closed(w: State) -> State
    ensures { result ≡ closed_of_word w }
{
    State(w.0 | CLOSED)
}
