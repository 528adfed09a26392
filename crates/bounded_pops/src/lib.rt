// The rows of pop. The definitions: crate bounded_acts.
#![tactic(auto)]

ghost use Rattle.std.specs.Prelude.{◌≡◌};
ghost use Rattle.bounded_words.specs.Words.{Fair, next_of};
ghost use Rattle.bounded_acts.specs.Acts.{head_to, act_o2, act_o3, act_o5, act_o6};

use bounded_acts::Acted;
use bounded_places::{Answer, Ends, Exchange, Loss, Place, Slot};
use bounded_words::{Fixed, Stamp, Width};

#[tactic(auto, unfolding(bounded_acts::specs::Acts::head_to))]
fn head_to_next(bits: Width, f: Fixed, e: Ends, h: Stamp) -> Ends
    requires { Fair f }
    ensures { result ≡ head_to e (next_of bits f h) }
{
    Ends {
        head: bounded_words::next(bits, f, h),
        tail: e.tail,
    }
}

#[tactic(auto, unfolding(bounded_words::specs::Words::same))]
pub fn o2(bits: Width, e: Ends, s: Slot, h: Stamp) -> Acted
    ensures { result ≡ act_o2 bits e s h }
{
    if bounded_words::one_past(bits, s.stamp, h) {
        // "If the stamp is ahead of the head by 1, we may attempt to pop."
        bounded_acts::goes(e, s, Place::O3(h))
    } else if s.stamp == h {
        // Not written on this lap: nothing is there, or a push has claimed it and not yet stamped it.
        bounded_acts::goes(e, s, Place::O6(h))
    } else {
        bounded_acts::goes(e, s, Place::O1)
    }
}

pub fn o3(bits: Width, f: Fixed, e: Ends, s: Slot, h: Stamp, lose: bool) -> Acted
    requires { Fair f }
    ensures { result ≡ act_o3 bits f e s h lose }
{
    match bounded_acts::exchange(e.head, h, lose) {
        Exchange::Won => bounded_acts::goes(head_to_next(bits, f, e, h), s, Place::O4(h)),
        Exchange::Differed(found) => bounded_acts::losing(e, s, Place::O2(found), Loss::ByWords),
        Exchange::Failed => bounded_acts::losing(e, s, Place::O2(h), Loss::BySchedule),
    }
}

pub fn o5(bits: Width, f: Fixed, e: Ends, s: Slot, h: Stamp, value: u64) -> Acted
    ensures { result ≡ act_o5 bits f e s h value }
{
    bounded_acts::goes(
        e,
        bounded_acts::stamp_to(bits, s, h, f.lap),
        Place::Idle(Answer::Popped(value)),
    )
}

pub fn o6(f: Fixed, e: Ends, s: Slot, h: Stamp) -> Acted
    requires { Fair f }
    ensures { result ≡ act_o6 f e s h }
{
    // "If the tail equals the head, that means the queue is empty."
    if !bounded_words::unmarked_is(f, e.tail, h) {
        return bounded_acts::goes(e, s, Place::O1);
    }
    if bounded_words::marked(f, e.tail) {
        bounded_acts::goes(e, s, Place::Idle(Answer::PopClosed))
    } else {
        bounded_acts::goes(e, s, Place::Idle(Answer::Empty))
    }
}
