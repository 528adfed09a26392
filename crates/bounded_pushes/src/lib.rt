// The rows of push, of which force_push takes the first three. The definitions: crate bounded_acts.
#![tactic(auto)]

ghost use Rattle.std.specs.Prelude.{◌≡◌};
ghost use Rattle.bounded_words.specs.Words.{Fair, next_of};
ghost use Rattle.bounded_acts.specs.Acts.{after_tail, tail_to, full_at, act_p1, act_p2, act_p3, act_p5, act_p6};

use bounded_acts::Acted;
use bounded_places::{Answer, Ends, Exchange, Kind, Loss, Place, Slot};
use bounded_words::{Fixed, Stamp, Width};

#[tactic(auto, unfolding(bounded_acts::specs::Acts::tail_to))]
fn tail_to_next(bits: Width, f: Fixed, e: Ends, t: Stamp) -> Ends
    requires { Fair f }
    ensures { result ≡ tail_to e (next_of bits f t) }
{
    Ends {
        head: e.head,
        tail: bounded_words::next(bits, f, t),
    }
}

// Where push goes with a tail loaded or found: "marked: Closed, else P2".
#[tactic(auto, unfolding(bounded_acts::specs::Acts::after_tail))]
fn after_tail(f: Fixed, k: Kind, t: Stamp, item: u64) -> Place
    requires { Fair f }
    ensures { result ≡ after_tail f k t item }
{
    if bounded_words::marked(f, t) {
        Place::Idle(Answer::Closed(item))
    } else {
        Place::P2(k, t, item)
    }
}

pub fn p1(f: Fixed, e: Ends, s: Slot, k: Kind, item: u64) -> Acted
    requires { Fair f }
    ensures { result ≡ act_p1 f e s k item }
{
    bounded_acts::goes(e, s, after_tail(f, k, e.tail, item))
}

fn full_at(k: Kind, t: Stamp, item: u64) -> Place
    ensures { result ≡ full_at k t item }
{
    match k {
        Kind::Push => Place::P6(t, item),
        Kind::Force => Place::F6(t, item),
    }
}

#[tactic(auto, unfolding(bounded_words::specs::Words::same))]
pub fn p2(bits: Width, f: Fixed, e: Ends, s: Slot, k: Kind, t: Stamp, item: u64) -> Acted
    ensures { result ≡ act_p2 bits f e s k t item }
{
    if s.stamp == t {
        // "If the tail and the stamp match, we may attempt to push."
        bounded_acts::goes(e, s, Place::P3(k, t, item))
    } else if bounded_words::lap_behind_one_past(bits, f, s.stamp, t) {
        // The last lap's item is still there: full, or a pop is about to take it.
        bounded_acts::goes(e, s, full_at(k, t, item))
    } else {
        bounded_acts::goes(e, s, Place::P1(k, item))
    }
}

pub fn p3(
    bits: Width,
    f: Fixed,
    e: Ends,
    s: Slot,
    k: Kind,
    t: Stamp,
    item: u64,
    lose: bool,
) -> Acted
    requires { Fair f }
    ensures { result ≡ act_p3 bits f e s k t item lose }
{
    match bounded_acts::exchange(e.tail, t, lose) {
        Exchange::Won => bounded_acts::goes(tail_to_next(bits, f, e, t), s, Place::P4(t, item)),
        Exchange::Differed(found) => {
            bounded_acts::losing(e, s, after_tail(f, k, found, item), Loss::ByWords)
        }
        Exchange::Failed => bounded_acts::losing(e, s, Place::P2(k, t, item), Loss::BySchedule),
    }
}

pub fn p5(bits: Width, e: Ends, s: Slot, t: Stamp) -> Acted
    ensures { result ≡ act_p5 bits e s t }
{
    bounded_acts::goes(
        e,
        bounded_acts::stamp_to(bits, s, t, 1),
        Place::Idle(Answer::Pushed),
    )
}

pub fn p6(bits: Width, f: Fixed, e: Ends, s: Slot, t: Stamp, item: u64) -> Acted
    ensures { result ≡ act_p6 bits f e s t item }
{
    // "If the head lags one lap behind the tail as well.. then the queue is full."
    if bounded_words::lap_behind(bits, f, e.head, t) {
        bounded_acts::goes(e, s, Place::Idle(Answer::Full(item)))
    } else {
        bounded_acts::goes(e, s, Place::P1(Kind::Push, item))
    }
}
