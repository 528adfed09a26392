// Where a worker stands, what it holds, and what a call answers: the places of src/single.rs.
#![tactic(auto)]

ghost use Rattle.std.specs.Prelude.{◌≡◌, false};
ghost use Rattle.single_places.specs.Places.{at, view_of, begin_of};

use queue_entries::Call;
use single_words::State;

// The queue itself: its state word, and the value in its slot.
#[derive(Clone, Copy)]
pub struct Single {
    pub state: State,
    pub value: u64,
}

// What a call answered. Closed and Full hand the caller's item back; PopClosed is pop's Closed.
#[derive(Clone, Copy)]
pub enum Answer {
    Nothing,
    Pushed,
    Full(u64),
    Closed(u64),
    Displaced(u64),
    Popped(u64),
    Empty,
    PopClosed,
    Len(u64),
    Yes,
    No,
}

// Where a worker stands: the action that it takes next, of push (A), force_push (B), pop (C) in the source's order, or of a looker. e is
// the word that an exchange expects; the other numbers are the call's item or the value read.
#[derive(Clone, Copy)]
pub enum Place {
    // No call under way: the last answer.
    Idle(Answer),
    // push: exchange 0 for LOCKED and PUSHED.
    A1(u64),
    // Locked by this worker: write the item, then unlock.
    A2(u64),
    A3,
    // force_push: exchange e for LOCKED and PUSHED.
    B1(State, u64),
    // Nothing was there: write the item, then unlock.
    B2(u64),
    B3,
    // An item was there: put the item in its place, then unlock; the number of B5 is the old value.
    B4(u64),
    B5(u64),
    // pop: exchange e for LOCKED without PUSHED.
    C1(State),
    // Read the value, then unlock.
    C2,
    C3(u64),
    // The lookers: one load of the word, or for close one change of it.
    Len1,
    Empty1,
    Full1,
    Close1,
    IsClosed1,
}

// The record of a worker.
#[derive(Clone, Copy)]
pub struct Worker {
    pub place: Place,
}

// What every rule asks of a place.
#[derive(Clone, Copy)]
pub struct View {
    pub busy: bool,
    // the slot is in its worker's hand: from a won exchange until the word is unlocked
    pub hand: bool,
}

fn at(hand: bool) -> View
    ensures { result ≡ at hand }
{
    View { busy: true, hand }
}

pub fn view_of(p: Place) -> View
    ensures { result ≡ view_of p }
{
    match p {
        Place::Idle(_) => View {
            busy: false,
            hand: false,
        },
        Place::A1(_) => at(false),
        Place::A2(_) => at(true),
        Place::A3 => at(true),
        Place::B1(_, _) => at(false),
        Place::B2(_) => at(true),
        Place::B3 => at(true),
        Place::B4(_) => at(true),
        Place::B5(_) => at(true),
        Place::C1(_) => at(false),
        Place::C2 => at(true),
        Place::C3(_) => at(true),
        Place::Len1 => at(false),
        Place::Empty1 => at(false),
        Place::Full1 => at(false),
        Place::Close1 => at(false),
        Place::IsClosed1 => at(false),
    }
}

// The place at which a call begins: force_push expects an empty queue at first, pop one that holds an item.
pub fn first_place(c: Call) -> Place
    ensures { result ≡ begin_of c }
{
    match c {
        Call::Push(item) => Place::A1(item),
        Call::ForcePush(item) => Place::B1(State(0), item),
        Call::Pop => Place::C1(State(single_words::PUSHED)),
        Call::Len => Place::Len1,
        Call::IsEmpty => Place::Empty1,
        Call::IsFull => Place::Full1,
        Call::Close => Place::Close1,
        Call::IsClosed => Place::IsClosed1,
    }
}
