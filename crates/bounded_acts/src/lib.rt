// One act: the action of the source at a worker's place, with the local decisions up to the next. Here are the definitions of all of them
// (specs/Acts.antt) and what several places share; the acts themselves: bounded_pushes, bounded_forces, bounded_pops, bounded_lookers.
#![tactic(auto)]

ghost use Rattle.std.specs.Prelude.{◌≡◌};
ghost use Rattle.bounded_words.specs.Words.{plus};
ghost use Rattle.bounded_acts.specs.Acts.{goes, losing, exchange_of, stamp_to, value_to, count_of, Within};

use bounded_places::{Ends, Exchange, Loss, Place, Slot};
use bounded_words::{Fixed, Stamp, Width};

// What an act leaves: the two ends, the slot at its worker's word, the place its worker goes to, and what it lost.
#[derive(Clone, Copy)]
pub struct Acted {
    pub ends: Ends,
    pub slot: Slot,
    pub place: Place,
    pub loss: Loss,
}

#[tactic(auto, unfolding(crate::specs::Acts::goes))]
pub fn goes(e: Ends, s: Slot, p: Place) -> Acted
    ensures { result ≡ goes e s p }
{
    Acted {
        ends: e,
        slot: s,
        place: p,
        loss: Loss::Nothing,
    }
}

#[tactic(auto, unfolding(crate::specs::Acts::losing))]
pub fn losing(e: Ends, s: Slot, p: Place, l: Loss) -> Acted
    ensures { result ≡ losing e s p l }
{
    Acted {
        ends: e,
        slot: s,
        place: p,
        loss: l,
    }
}

// The exchange step of P3, F6 and O3.
#[tactic(auto, unfolding(crate::specs::Acts::exchange_of, bounded_words::specs::Words::same))]
pub fn exchange(found: Stamp, expected: Stamp, lose: bool) -> Exchange
    ensures { result ≡ exchange_of found expected lose }
{
    if found != expected {
        Exchange::Differed(found)
    } else if lose {
        Exchange::Failed
    } else {
        Exchange::Won
    }
}

// The kinds of effect.

#[tactic(auto, unfolding(crate::specs::Acts::stamp_to))]
pub fn stamp_to(bits: Width, s: Slot, w: Stamp, by: u64) -> Slot
    ensures { result ≡ stamp_to s (plus bits w by) }
{
    Slot {
        stamp: bounded_words::later(bits, w, by),
        value: s.value,
    }
}

#[tactic(auto, unfolding(crate::specs::Acts::value_to))]
pub fn value_to(s: Slot, v: u64) -> Slot
    ensures { result ≡ value_to s v }
{
    Slot {
        stamp: s.stamp,
        value: v,
    }
}

// How many items lie between the two words.
#[tactic(auto, unfolding(crate::specs::Acts::count_of))]
pub fn count(f: Fixed, tail: Stamp, head: Stamp) -> u64
    requires { Within f tail head }
    ensures { result ≡ count_of f tail head }
{
    let hix = bounded_words::index(f, head);
    let tix = bounded_words::index(f, tail);
    if hix < tix {
        tix - hix
    } else if tix < hix {
        f.capacity - hix + tix
    } else if bounded_words::unmarked_is(f, tail, head) {
        0
    } else {
        f.capacity
    }
}
