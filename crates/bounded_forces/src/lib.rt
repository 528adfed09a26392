// The rows of force_push alone. The definitions: crate bounded_acts.
#![tactic(auto)]

ghost use Rattle.std.specs.Prelude.{◌≡◌};
ghost use Rattle.bounded_words.specs.Words.{Fair, minus, next_of};
ghost use Rattle.bounded_acts.specs.Acts.{tail_to, head_to, forced_tail, act_f6, act_f7, act_f8, act_f9};

use bounded_acts::Acted;
use bounded_places::{Answer, Ends, Exchange, Kind, Loss, Place, Slot};
use bounded_words::{Fixed, Stamp, Width};

// The word that F7 stores: "in edition 2 .. next(t) but keeps tail's mark, in one action".
#[tactic(auto, unfolding(bounded_acts::specs::Acts::forced_tail))]
fn forced_tail(bits: Width, f: Fixed, tail: Stamp, t: Stamp) -> Stamp
    requires { Fair f }
    ensures { result ≡ forced_tail bits f tail t }
{
    let w = bounded_words::next(bits, f, t);
    if f.edition == 2 && bounded_words::marked(f, tail) {
        bounded_words::with_mark(bits, f, w)
    } else {
        w
    }
}

#[tactic(auto, unfolding(bounded_acts::specs::Acts::tail_to))]
fn tail_to_forced(bits: Width, f: Fixed, e: Ends, t: Stamp) -> Ends
    requires { Fair f }
    ensures { result ≡ tail_to e (forced_tail bits f e.tail t) }
{
    Ends {
        head: e.head,
        tail: forced_tail(bits, f, e.tail, t),
    }
}

#[tactic(auto, unfolding(bounded_acts::specs::Acts::head_to))]
fn head_to_lap_before_next(bits: Width, f: Fixed, e: Ends, t: Stamp) -> Ends
    requires { Fair f }
    ensures { result ≡ head_to e (minus bits (next_of bits f t) f.lap) }
{
    Ends {
        head: bounded_words::earlier(bits, bounded_words::next(bits, f, t), f.lap),
        tail: e.tail,
    }
}

pub fn f6(bits: Width, f: Fixed, e: Ends, s: Slot, t: Stamp, item: u64, lose: bool) -> Acted
    requires { Fair f }
    ensures { result ≡ act_f6 bits f e s t item lose }
{
    let found = e.head;
    let expected = bounded_words::earlier(bits, t, f.lap);
    let again = Place::P1(Kind::Force, item);
    match bounded_acts::exchange(found, expected, lose) {
        Exchange::Won => bounded_acts::goes(
            head_to_lap_before_next(bits, f, e, t),
            s,
            Place::F7(t, item),
        ),
        Exchange::Differed(_) => bounded_acts::losing(e, s, again, Loss::ByWords),
        Exchange::Failed => bounded_acts::losing(e, s, again, Loss::BySchedule),
    }
}

pub fn f7(bits: Width, f: Fixed, e: Ends, s: Slot, t: Stamp, item: u64) -> Acted
    requires { Fair f }
    ensures { result ≡ act_f7 bits f e s t item }
{
    bounded_acts::goes(tail_to_forced(bits, f, e, t), s, Place::F8(t, item))
}

pub fn f8(e: Ends, s: Slot, t: Stamp, item: u64) -> Acted
    ensures { result ≡ act_f8 e s t item }
{
    bounded_acts::goes(e, bounded_acts::value_to(s, item), Place::F9(t, s.value))
}

pub fn f9(bits: Width, e: Ends, s: Slot, t: Stamp, old: u64) -> Acted
    ensures { result ≡ act_f9 bits e s t old }
{
    bounded_acts::goes(
        e,
        bounded_acts::stamp_to(bits, s, t, 1),
        Place::Idle(Answer::Displaced(old)),
    )
}
