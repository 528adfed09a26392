// Where a worker stands, what it has loaded, and what a call answers: document 01, "Acts".
#![tactic(auto)]

ghost use Rattle.std.specs.Prelude.{◌≡◌, true, false};
ghost use Rattle.bounded_words.specs.Words.{Fair};
ghost use Rattle.bounded_places.specs.Places.{says_yes, idle, works, holds, counts, looks, view_of, inside, fits_of, begin_of};

use bounded_words::{Fixed, Stamp};
use queue_entries::Call;

// A slot of a ring.
#[derive(Clone, Copy)]
pub struct Slot {
    pub stamp: Stamp,
    pub value: u64,
}

// The two words that every call works with.
#[derive(Clone, Copy)]
pub struct Ends {
    // Never marked. Values are popped here.
    pub head: Stamp,
    // Marked once the ring is closed. Values are pushed here.
    pub tail: Stamp,
}

// Which of the two calls stands at P1, P2 or P3.
#[derive(Clone, Copy)]
pub enum Kind {
    Push,
    Force,
}

// What a call answered. Closed and Full hand the caller's item back; PopClosed is pop's Closed.
#[derive(Clone, Copy)]
pub enum Answer {
    Nothing,
    Pushed,
    Full(u64),
    Closed(u64),
    Displaced(u64),
    Popped(u64),
    Empty,
    PopClosed,
    Len(u64),
    Yes,
    No,
}

// Where a worker stands: the action that it takes next, with the words that it has loaded and the item of its call. t is a tail, h a head
// that it loaded or found.
#[derive(Clone, Copy)]
pub enum Place {
    // No call under way: the last answer.
    Idle(Answer),
    // push, force_push: load tail.
    P1(Kind, u64),
    // Load the stamp of t's slot: is it free on this lap?
    P2(Kind, Stamp, u64),
    // Try to claim: tail from t to next(t), a weak exchange.
    P3(Kind, Stamp, u64),
    // The slot is this worker's: write the item.
    P4(Stamp, u64),
    // Store the stamp t + 1, by which a pop sees that the item is there.
    P5(Stamp),
    // push: the slot still has the last lap's item. Load head, to tell Full from a pop under way.
    P6(Stamp, u64),
    // force_push, there: try to take the oldest item, head from t - lap to next(t) - lap, a weak exchange.
    F6(Stamp, u64),
    // The oldest slot is this worker's: store tail, so that the item comes in behind the others.
    F7(Stamp, u64),
    // Read the old value and write the item.
    F8(Stamp, u64),
    // Store the stamp t + 1; the number is the value displaced.
    F9(Stamp, u64),
    // pop: load head.
    O1,
    // Load the stamp of h's slot: is an item there?
    O2(Stamp),
    // Try to claim: head from h to next(h), a weak exchange.
    O3(Stamp),
    // The slot is this worker's: read the value.
    O4(Stamp),
    // Store the stamp h + lap, by which a push of the next lap sees that the slot is free; the number is the value.
    O5(Stamp, u64),
    // No item is there. Load tail, to tell Empty or Closed from a push under way.
    O6(Stamp),
    // len: load tail, then head, then tail once more, which must be the first.
    Len1,
    Len2(Stamp),
    // tail, head
    Len3(Stamp, Stamp),
    // is_empty: load head, then tail.
    Empty1,
    Empty2(Stamp),
    // is_full: load tail, then head.
    Full1,
    Full2(Stamp),
    // close: set tail's mark.
    Close1,
    // is_closed: load tail.
    IsClosed1,
}

// How an exchange ended: won; lost because the words differed, with the word found; or lost by the schedule. Where both apply it is the
// first kind of loss.
#[derive(Clone, Copy)]
pub enum Exchange {
    Won,
    Differed(Stamp),
    Failed,
}

// What an act lost: nothing, if it was no exchange or a won one.
#[derive(Clone, Copy)]
pub enum Loss {
    Nothing,
    ByWords,
    BySchedule,
}

// The record of a worker: its place, and how many exchanges its present call, or its last one if it is idle, has lost because the words
// differed and by the schedule.
#[derive(Clone, Copy)]
pub struct Worker {
    pub place: Place,
    pub differed: u64,
    pub failed: u64,
}

// The loaded words of a place that document 01's "Broken" speaks of.
#[derive(Clone, Copy)]
pub enum Held {
    Nothing,
    // t or h of push, force_push and pop
    End(Stamp),
    // tail, of len
    Tail(Stamp),
    // tail and head, of len
    Both(Stamp, Stamp),
}

// An end of the ring: the one that an act moved, or a call's own.
#[derive(Clone, Copy)]
pub enum Moved {
    Neither,
    Tail,
    Head,
}

// What going back asks of a place.
#[derive(Clone, Copy)]
pub struct Stand {
    // the call's own end
    pub end: Moved,
    // the call loads stamps
    pub stamps: bool,
    // how far the call is; 0 is idle
    pub far: u64,
    // a slot is in hand
    pub hand: bool,
    // close's act is next
    pub close: bool,
    // idle, having answered yes
    pub yes: bool,
}

// What every rule asks of a place: its row of the one table of places.
#[derive(Clone, Copy)]
pub struct View {
    pub busy: bool,
    // its action is a weak exchange
    pub weak: bool,
    pub held: Held,
    // which end the act that led here moved
    pub moved: Moved,
    // its action reads a value out
    pub reads: bool,
    pub stand: Stand,
}

fn says_yes(a: Answer) -> bool
    ensures { result ≡ says_yes a }
{
    matches!(a, Answer::Yes)
}

fn idle(a: Answer) -> View
    ensures { result ≡ idle a }
{
    View {
        busy: false,
        weak: false,
        held: Held::Nothing,
        moved: Moved::Neither,
        reads: false,
        stand: Stand {
            end: Moved::Neither,
            stamps: false,
            far: 0,
            hand: false,
            close: false,
            yes: says_yes(a),
        },
    }
}

fn works(end: Moved, far: u64, weak: bool, held: Held) -> View
    ensures { result ≡ works end far weak held }
{
    View {
        busy: true,
        weak,
        held,
        moved: Moved::Neither,
        reads: false,
        stand: Stand {
            end,
            stamps: true,
            far,
            hand: false,
            close: false,
            yes: false,
        },
    }
}

fn holds(end: Moved, far: u64, w: Stamp, moved: Moved, reads: bool) -> View
    ensures { result ≡ holds end far w moved reads }
{
    View {
        busy: true,
        weak: false,
        held: Held::End(w),
        moved,
        reads,
        stand: Stand {
            end,
            stamps: true,
            far,
            hand: true,
            close: false,
            yes: false,
        },
    }
}

fn counts(far: u64, held: Held) -> View
    ensures { result ≡ counts far held }
{
    View {
        busy: true,
        weak: false,
        held,
        moved: Moved::Neither,
        reads: false,
        stand: Stand {
            end: Moved::Tail,
            stamps: false,
            far,
            hand: false,
            close: false,
            yes: false,
        },
    }
}

fn looks(close: bool, far: u64) -> View
    ensures { result ≡ looks close far }
{
    View {
        busy: true,
        weak: false,
        held: Held::Nothing,
        moved: Moved::Neither,
        reads: false,
        stand: Stand {
            end: Moved::Neither,
            stamps: false,
            far,
            hand: false,
            close,
            yes: false,
        },
    }
}

pub fn view_of(p: Place) -> View
    ensures { result ≡ view_of p }
{
    match p {
        Place::Idle(a) => idle(a),
        Place::P1(_, _) => works(Moved::Tail, 1, false, Held::Nothing),
        Place::P2(_, t, _) => works(Moved::Tail, 2, false, Held::End(t)),
        Place::P3(_, t, _) => works(Moved::Tail, 3, true, Held::End(t)),
        Place::P4(t, _) => holds(Moved::Tail, 4, t, Moved::Tail, false),
        Place::P5(t) => holds(Moved::Tail, 5, t, Moved::Neither, false),
        Place::P6(t, _) => works(Moved::Tail, 3, false, Held::End(t)),
        Place::F6(t, _) => works(Moved::Tail, 3, true, Held::End(t)),
        Place::F7(t, _) => holds(Moved::Tail, 4, t, Moved::Head, false),
        Place::F8(t, _) => holds(Moved::Tail, 5, t, Moved::Tail, true),
        Place::F9(t, _) => holds(Moved::Tail, 6, t, Moved::Neither, false),
        Place::O1 => works(Moved::Head, 1, false, Held::Nothing),
        Place::O2(h) => works(Moved::Head, 2, false, Held::End(h)),
        Place::O3(h) => works(Moved::Head, 3, true, Held::End(h)),
        Place::O4(h) => holds(Moved::Head, 4, h, Moved::Head, true),
        Place::O5(h, _) => holds(Moved::Head, 5, h, Moved::Neither, false),
        Place::O6(h) => works(Moved::Head, 3, false, Held::End(h)),
        Place::Len1 => counts(1, Held::Nothing),
        Place::Len2(t) => counts(2, Held::Tail(t)),
        Place::Len3(t, h) => counts(3, Held::Both(t, h)),
        Place::Empty1 => looks(false, 1),
        Place::Empty2(_) => looks(false, 2),
        Place::Full1 => looks(false, 1),
        Place::Full2(_) => looks(false, 2),
        Place::Close1 => looks(true, 1),
        Place::IsClosed1 => looks(false, 1),
    }
}

pub fn inside_of(f: Fixed, w: Stamp) -> bool
    requires { Fair f }
    ensures { result ≡ inside f w }
{
    bounded_words::index(f, w) < f.capacity
}

// "Broken", of the words of one record.
pub fn fits(f: Fixed, held: Held) -> bool
    requires { Fair f }
    ensures { result ≡ fits_of f held }
{
    match held {
        Held::Nothing => true,
        Held::End(w) => !bounded_words::marked(f, w) && inside_of(f, w),
        Held::Tail(t) => inside_of(f, t),
        Held::Both(t, h) => inside_of(f, t) && inside_of(f, h),
    }
}

// The place at which a call begins.
pub fn first_place(c: Call) -> Place
    ensures { result ≡ begin_of c }
{
    match c {
        Call::Push(item) => Place::P1(Kind::Push, item),
        Call::ForcePush(item) => Place::P1(Kind::Force, item),
        Call::Pop => Place::O1,
        Call::Len => Place::Len1,
        Call::IsEmpty => Place::Empty1,
        Call::IsFull => Place::Full1,
        Call::Close => Place::Close1,
        Call::IsClosed => Place::IsClosed1,
    }
}
