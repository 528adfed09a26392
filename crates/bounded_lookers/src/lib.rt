// len, is_empty, is_full, close and is_closed. The definitions: crate bounded_acts.
#![tactic(auto)]

ghost use Rattle.std.specs.Prelude.{◌≡◌};
ghost use Rattle.bounded_words.specs.Words.{Fair, with_mark};
ghost use Rattle.bounded_places.specs.declared.Place.TheVariants.{Idle};
ghost use Rattle.bounded_acts.specs.Acts.{goes, tail_to, yes_no, act_len3, act_empty2, act_full2, act_close1, act_is_closed1, Within};

use bounded_acts::Acted;
use bounded_places::{Answer, Ends, Place, Slot};
use bounded_words::{Fixed, Stamp, Width};

// A looker's answer.
fn told(e: Ends, s: Slot, yes: bool) -> Acted
    ensures { result ≡ goes e s (Idle (yes_no yes)) }
{
    let answer = if yes { Answer::Yes } else { Answer::No };
    bounded_acts::goes(e, s, Place::Idle(answer))
}

#[tactic(auto, unfolding(bounded_acts::specs::Acts::tail_to))]
fn tail_to_marked(bits: Width, f: Fixed, e: Ends) -> Ends
    requires { Fair f }
    ensures { result ≡ tail_to e (with_mark bits f e.tail) }
{
    Ends {
        head: e.head,
        tail: bounded_words::with_mark(bits, f, e.tail),
    }
}

#[tactic(auto, unfolding(bounded_words::specs::Words::same))]
pub fn len3(f: Fixed, e: Ends, s: Slot, t: Stamp, h: Stamp) -> Acted
    requires { Within f t h }
    ensures { result ≡ act_len3 f e s t h }
{
    if e.tail == t {
        bounded_acts::goes(e, s, Place::Idle(Answer::Len(bounded_acts::count(f, t, h))))
    } else {
        bounded_acts::goes(e, s, Place::Len1)
    }
}

pub fn empty2(f: Fixed, e: Ends, s: Slot, h: Stamp) -> Acted
    requires { Fair f }
    ensures { result ≡ act_empty2 f e s h }
{
    told(e, s, bounded_words::unmarked_is(f, e.tail, h))
}

pub fn full2(bits: Width, f: Fixed, e: Ends, s: Slot, t: Stamp) -> Acted
    requires { Fair f }
    ensures { result ≡ act_full2 bits f e s t }
{
    told(e, s, bounded_words::lap_behind_unmarked(bits, f, e.head, t))
}

pub fn close1(bits: Width, f: Fixed, e: Ends, s: Slot) -> Acted
    requires { Fair f }
    ensures { result ≡ act_close1 bits f e s }
{
    if bounded_words::marked(f, e.tail) {
        bounded_acts::goes(e, s, Place::Idle(Answer::No))
    } else {
        bounded_acts::goes(tail_to_marked(bits, f, e), s, Place::Idle(Answer::Yes))
    }
}

pub fn is_closed1(f: Fixed, e: Ends, s: Slot) -> Acted
    requires { Fair f }
    ensures { result ≡ act_is_closed1 f e s }
{
    told(e, s, bounded_words::marked(f, e.tail))
}
