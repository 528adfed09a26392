// One act: the action of src/single.rs at a worker's place, with the local decisions up to the next.
// One function for each place, and which is taken where: specs/Acts.antt has them beside the source's lines.
#![tactic(auto)]

ghost use Rattle.std.specs.Prelude.{◌≡◌};
ghost use Rattle.single_words.specs.Words.{taken_of, closed_of_word};
ghost use Rattle.single_acts.specs.Acts.{goes, state_to, value_to, exchanged, unlocked_in, len_of, act_a1, act_a2, act_a3, act_b1, act_b2, act_b3, act_b4, act_b5, act_c1, act_c2, act_c3, act_len1, act_empty1, act_full1, act_close1, act_is_closed1};

use single_places::{Answer, Place, Single};
use single_words::State;

// What an act leaves: the queue, and the place its worker goes to.
#[derive(Clone, Copy)]
pub struct Acted {
    pub single: Single,
    pub place: Place,
}

pub fn goes(s: Single, p: Place) -> Acted
    ensures { result ≡ goes s p }
{
    Acted {
        single: s,
        place: p,
    }
}

// The kinds of effect.

fn state_to(s: Single, w: State) -> Single
    ensures { result ≡ state_to s w }
{
    Single { state: w, ..s }
}

fn value_to(s: Single, v: u64) -> Single
    ensures { result ≡ value_to s v }
{
    Single { value: v, ..s }
}

// A strong exchange of e for w.
fn exchange(s: Single, e: State, w: State) -> Single
    ensures { result ≡ exchanged s e w }
{
    if s.state == e { state_to(s, w) } else { s }
}

fn unlock(s: Single) -> Single
    ensures { result ≡ unlocked_in s }
{
    state_to(s, single_words::unlocked(s.state))
}

// What pop exchanges e for.
fn take(s: Single, e: State) -> Single
    ensures { result ≡ exchanged s e (taken_of e) }
{
    exchange(s, e, single_words::taken(e))
}

fn shut(s: Single) -> Single
    ensures { result ≡ state_to s (closed_of_word s.state) }
{
    state_to(s, single_words::with_closed(s.state))
}

// push

pub fn a1(s: Single, item: u64) -> Acted
    ensures { result ≡ act_a1 s item }
{
    let after = exchange(
        s,
        State(0),
        State(single_words::LOCKED | single_words::PUSHED),
    );
    if s.state == State(0) {
        return goes(after, Place::A2(item));
    }
    if single_words::closed(s.state) {
        goes(after, Place::Idle(Answer::Closed(item)))
    } else {
        goes(after, Place::Idle(Answer::Full(item)))
    }
}

pub fn a2(s: Single, item: u64) -> Acted
    ensures { result ≡ act_a2 s item }
{
    goes(value_to(s, item), Place::A3)
}

pub fn a3(s: Single) -> Acted
    ensures { result ≡ act_a3 s }
{
    goes(unlock(s), Place::Idle(Answer::Pushed))
}

// force_push

pub fn b1(s: Single, e: State, item: u64) -> Acted
    ensures { result ≡ act_b1 s e item }
{
    let after = exchange(s, e, State(single_words::LOCKED | single_words::PUSHED));
    if single_words::closed(s.state) {
        return goes(after, Place::Idle(Answer::Closed(item)));
    }
    if s.state == e {
        if single_words::pushed(s.state) {
            goes(after, Place::B4(item))
        } else {
            goes(after, Place::B2(item))
        }
    } else {
        goes(after, Place::B1(single_words::unlocked(s.state), item))
    }
}

pub fn b2(s: Single, item: u64) -> Acted
    ensures { result ≡ act_b2 s item }
{
    goes(value_to(s, item), Place::B3)
}

pub fn b3(s: Single) -> Acted
    ensures { result ≡ act_b3 s }
{
    goes(unlock(s), Place::Idle(Answer::Pushed))
}

pub fn b4(s: Single, item: u64) -> Acted
    ensures { result ≡ act_b4 s item }
{
    goes(value_to(s, item), Place::B5(s.value))
}

pub fn b5(s: Single, old: u64) -> Acted
    ensures { result ≡ act_b5 s old }
{
    goes(unlock(s), Place::Idle(Answer::Displaced(old)))
}

pub fn c1(s: Single, e: State) -> Acted
    ensures { result ≡ act_c1 s e }
{
    let after = take(s, e);
    if s.state == e {
        return goes(after, Place::C2);
    }
    if single_words::pushed(s.state) {
        return goes(after, Place::C1(single_words::unlocked(s.state)));
    }
    if single_words::closed(s.state) {
        goes(after, Place::Idle(Answer::PopClosed))
    } else {
        goes(after, Place::Idle(Answer::Empty))
    }
}

pub fn c2(s: Single) -> Acted
    ensures { result ≡ act_c2 s }
{
    goes(s, Place::C3(s.value))
}

pub fn c3(s: Single, value: u64) -> Acted
    ensures { result ≡ act_c3 s value }
{
    goes(unlock(s), Place::Idle(Answer::Popped(value)))
}

// The lookers, and close.

fn len_of(w: State) -> u64
    ensures { result ≡ len_of w }
{
    if single_words::pushed(w) { 1 } else { 0 }
}

pub fn len1(s: Single) -> Acted
    ensures { result ≡ act_len1 s }
{
    goes(s, Place::Idle(Answer::Len(len_of(s.state))))
}

pub fn empty1(s: Single) -> Acted
    ensures { result ≡ act_empty1 s }
{
    if single_words::pushed(s.state) {
        goes(s, Place::Idle(Answer::No))
    } else {
        goes(s, Place::Idle(Answer::Yes))
    }
}

pub fn full1(s: Single) -> Acted
    ensures { result ≡ act_full1 s }
{
    if single_words::pushed(s.state) {
        goes(s, Place::Idle(Answer::Yes))
    } else {
        goes(s, Place::Idle(Answer::No))
    }
}

pub fn close1(s: Single) -> Acted
    ensures { result ≡ act_close1 s }
{
    let after = shut(s);
    if single_words::closed(s.state) {
        goes(after, Place::Idle(Answer::No))
    } else {
        goes(after, Place::Idle(Answer::Yes))
    }
}

pub fn is_closed1(s: Single) -> Acted
    ensures { result ≡ act_is_closed1 s }
{
    if single_words::closed(s.state) {
        goes(s, Place::Idle(Answer::Yes))
    } else {
        goes(s, Place::Idle(Answer::No))
    }
}
