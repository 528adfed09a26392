// At which moment an answer is the plain queue's, kept along a run: what an answer means.
#![tactic(auto)]

ghost use Rattle.std.specs.Prelude.{◌≡◌, if◌then◌else◌, slice_set};
ghost use Rattle.bounded_machine.specs.History.{untaken_of};
ghost use Rattle.bounded_moments.specs.Moments.{timing_said, timing_of, timed_of, heard_of, of_worker, start, moment_in, heard_by_all, begun_of, own_of, named_of};

use bounded_machine::Tally;
use bounded_places::{Answer, Moved, Place};
use bounded_words::Claim;

// When the plain queue gives the answer of a call, by the acts so far.
#[derive(Clone, Copy)]
pub enum Moment {
    // just before the entry at this place of the schedule
    Before(u64),
    // directly after the entry at this place
    After(u64),
    // directly after the next tail claim
    AfterNextTail,
    // directly after the next head claim
    AfterNextHead,
}

// What an act makes of its own call's moment.
#[derive(Clone, Copy)]
pub enum Timing {
    // just before the act
    Now,
    // as it was
    Stays,
    // now if something waits, else directly after the next tail claim
    IfSome,
    // now if there is room, else directly after the next head claim
    IfRoom,
}

// Of a worker's call, under way or its last. A struct, since the walk covers no field that is an array of enums.
#[derive(Clone, Copy)]
pub struct OfWorker {
    pub moment: Moment,
}

#[derive(Clone, Copy)]
pub struct Moments {
    // that of the next entry
    pub place: u64,
    // the claims so far
    pub tally: Tally,
    pub capacity: u64,
    pub each: [OfWorker; queue_entries::WORKERS],
}

#[derive(Clone, Copy)]
pub struct Named {
    pub moments: Moments,
    // the act ends its call
    pub ends: bool,
    pub moment: Moment,
}

fn timing_said(far: u64, a: Answer) -> Timing
    ensures { result ≡ timing_said far a }
{
    match a {
        Answer::Nothing => Timing::Stays,
        Answer::Pushed => Timing::Stays,
        Answer::Full(_) => Timing::Stays,
        Answer::Closed(_) => Timing::Now,
        Answer::Displaced(_) => Timing::Stays,
        Answer::Popped(_) => Timing::Stays,
        Answer::Empty => Timing::Now,
        Answer::PopClosed => Timing::Now,
        Answer::Len(_) => Timing::Stays,
        Answer::Yes => Timing::Now,
        Answer::No if far == 1 => Timing::Now,
        Answer::No => Timing::Stays,
    }
}

fn timing_of(before: Place, after: Place) -> Timing
    ensures { result ≡ timing_of before after }
{
    let stood = bounded_causes::stand_of(before);
    match after {
        Place::Idle(a) => timing_said(stood.far, a),
        Place::P1(_, _) => Timing::Stays,
        Place::P2(_, _, _) => Timing::Now,
        Place::P3(_, _, _) => Timing::Stays,
        Place::P4(_, _) => Timing::Now,
        Place::P5(_) => Timing::Stays,
        Place::P6(_, _) => Timing::Stays,
        Place::F6(_, _) => Timing::Stays,
        Place::F7(_, _) => Timing::Stays,
        Place::F8(_, _) => Timing::Stays,
        Place::F9(_, _) => Timing::Stays,
        Place::O1 => Timing::Stays,
        Place::O2(_) => Timing::Stays,
        Place::O3(_) => Timing::Stays,
        Place::O4(_) => Timing::Now,
        Place::O5(_, _) => Timing::Stays,
        Place::O6(_) => Timing::Stays,
        Place::Len1 => Timing::Stays,
        Place::Len2(_) => Timing::Stays,
        Place::Len3(_, _) => Timing::Now,
        Place::Empty1 => Timing::Stays,
        Place::Empty2(_) => Timing::IfSome,
        Place::Full1 => Timing::Stays,
        Place::Full2(_) => Timing::IfRoom,
        Place::Close1 => Timing::Stays,
        Place::IsClosed1 => Timing::Stays,
    }
}

fn before_unless(pending: bool, until: Moment, place: u64) -> Moment
    ensures { result ≡ (if pending then until else Moment.Before place) }
{
    if pending {
        until
    } else {
        Moment::Before(place)
    }
}

fn timed(t: Timing, place: u64, waits: u64, capacity: u64, was: Moment) -> Moment
    ensures { result ≡ timed_of t place waits capacity was }
{
    match t {
        Timing::Now => Moment::Before(place),
        Timing::Stays => was,
        Timing::IfSome => before_unless(waits == 0, Moment::AfterNextTail, place),
        Timing::IfRoom => before_unless(waits == capacity, Moment::AfterNextHead, place),
    }
}

fn after_if(claimed: bool, place: u64, pending: Moment) -> Moment
    ensures { result ≡ (if claimed then Moment.After place else pending) }
{
    if claimed {
        Moment::After(place)
    } else {
        pending
    }
}

fn heard(moved: Moved, place: u64, was: Moment) -> Moment
    ensures { result ≡ heard_of moved place was }
{
    match was {
        Moment::Before(_) | Moment::After(_) => was,
        Moment::AfterNextTail => {
            after_if(
                bounded_causes::claims_tail(moved),
                place,
                Moment::AfterNextTail,
            )
        }
        Moment::AfterNextHead => {
            after_if(
                bounded_causes::claims_head(moved),
                place,
                Moment::AfterNextHead,
            )
        }
    }
}

// What is kept before the first entry, of a ring of this capacity.
pub fn start(capacity: u64) -> Moments
    ensures { result ≡ start capacity }
{
    Moments {
        place: 0,
        tally: Tally {
            tail: Claim(0),
            head: Claim(0),
            reads: 0,
        },
        capacity,
        each: [OfWorker {
            moment: Moment::Before(0),
        }; queue_entries::WORKERS],
    }
}

fn moment_in(xs: [OfWorker; queue_entries::WORKERS], w: u64) -> Moment
    ensures { result ≡ moment_in xs w }
{
    if w < queue_entries::WORKERS as u64 {
        xs[w as usize].moment
    } else {
        Moment::Before(0)
    }
}

fn heard_by_all(
    xs: [OfWorker; queue_entries::WORKERS],
    moved: Moved,
    place: u64,
) -> [OfWorker; queue_entries::WORKERS]
    ensures { result ≡ heard_by_all moved place xs }
{
    let mut now = xs;
    for (i, x) in xs.iter().enumerate() {
        now[i] = OfWorker {
            moment: heard(moved, place, x.moment),
        };
    }
    now
}

fn with_own(
    xs: [OfWorker; queue_entries::WORKERS],
    w: u64,
    own: Moment,
) -> [OfWorker; queue_entries::WORKERS]
    ensures { result ≡ slice_set xs w (of_worker own) }
{
    let mut now = xs;
    if w < queue_entries::WORKERS as u64 {
        now[w as usize] = OfWorker { moment: own };
    }
    now
}

// Tail claims less head claims.
#[tactic(auto, unfolding(bounded_machine::specs::History::untaken_of))]
fn waiting(t: Tally) -> u64
    ensures { result ≡ untaken_of t }
{
    t.tail.0.saturating_sub(t.head.0)
}

// An accepted begin: what is then kept.
#[tactic(auto, unfolding(crate::specs::Moments::begun_of, bounded_stock::specs::Stock::one_more_act))]
pub fn begun(ms: Moments) -> Moments
    ensures { result ≡ begun_of ms }
{
    Moments {
        place: ms.place.wrapping_add(1),
        ..ms
    }
}

fn own_moment(ms: Moments, w: u64, before: Place, after: Place) -> Moment
    ensures { result ≡ own_of ms w before after }
{
    timed(
        timing_of(before, after),
        ms.place,
        waiting(ms.tally),
        ms.capacity,
        moment_in(ms.each, w),
    )
}

// An accepted act of worker w that led from one place to the other: what is then kept, whether the act ends its call, and the moment of its answer.
#[tactic(auto, unfolding(crate::specs::Moments::named_of, bounded_stock::specs::Stock::one_more_act))]
pub fn name_moment(ms: Moments, w: u64, before: Place, after: Place) -> Named
    ensures { result ≡ named_of ms w before after }
{
    let moment = own_moment(ms, w, before, after);
    let others = heard_by_all(ms.each, bounded_stock::moved_by(after), ms.place);
    Named {
        moments: Moments {
            place: ms.place.wrapping_add(1),
            tally: bounded_stock::tally(ms.tally, before, after),
            each: with_own(others, w, moment),
            ..ms
        },
        ends: !bounded_places::view_of(after).busy,
        moment,
    }
}
