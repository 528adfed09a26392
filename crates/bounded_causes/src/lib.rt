// Why a call goes back to an earlier place, kept along a run: document 02's item 9.
#![tactic(auto)]

ghost use Rattle.std.specs.Prelude.{◌≡◌, true, false, cond};
ghost use Rattle.bounded_causes.specs.Causes.{stand_of, goes_back_of, claims_tail, claims_head, deed_of, untouched, since_with, own_act, other_act, watch_with, start, watch_of, others_hold, watched_of, own_in, other_in, scheduled, causes_of, named_of};

use bounded_places::{Loss, Moved, Place, Stand};

// So many workers are watched: as many as can be lent (document 02, item 11).
pub const WATCHED: usize = 64;

// What an act did.
#[derive(Clone, Copy)]
pub struct Deed {
    // a claim at tail, at head
    pub tail: bool,
    pub head: bool,
    // the mark was set
    pub mark: bool,
    // it loaded or found the word that its call works with; it loaded a stamp
    pub word: bool,
    pub stamp: bool,
    // it left a slot in hand
    pub hand: bool,
}

// What was done to the ends since some act.
#[derive(Clone, Copy)]
pub struct Since {
    pub tail: bool,
    pub head: bool,
    pub mark: bool,
}

const UNTOUCHED: Since = Since {
    tail: false,
    head: false,
    mark: false,
};

// Of one worker.
#[derive(Clone, Copy)]
pub struct Watch {
    // since it loaded or found the word that it works with
    pub word: Since,
    // since its last stamp load
    pub stamp: Since,
    // another had a slot in hand at that load
    pub others: bool,
    // its latest act left it with a slot in hand
    pub hand: bool,
}

const UNWATCHED: Watch = Watch {
    word: UNTOUCHED,
    stamp: UNTOUCHED,
    others: false,
    hand: false,
};

#[derive(Clone, Copy)]
pub struct Watches {
    pub each: [Watch; WATCHED],
}

#[derive(Clone, Copy)]
pub struct Causes {
    pub schedule: bool,
    pub own: bool,
    pub other: bool,
    pub hand: bool,
}

#[derive(Clone, Copy)]
pub struct Named {
    pub watches: Watches,
    pub back: bool,
    pub causes: Causes,
}

pub fn stand_of(p: Place) -> Stand
    ensures { result ≡ stand_of p }
{
    bounded_places::view_of(p).stand
}

// An act that leads from the one to the other goes back to an earlier place of its call: a retry.
#[tactic(auto, unfolding(crate::specs::Causes::goes_back_of))]
pub fn goes_back(s: Stand, t: Stand) -> bool
    ensures { result ≡ goes_back_of s t }
{
    t.far != 0 && t.far < s.far
}

pub fn claims_tail(m: Moved) -> bool
    ensures { result ≡ claims_tail m }
{
    matches!(m, Moved::Tail)
}

pub fn claims_head(m: Moved) -> bool
    ensures { result ≡ claims_head m }
{
    matches!(m, Moved::Head)
}

#[tactic(auto, unfolding(crate::specs::Causes::deed_of))]
fn deed_of(s: Stand, t: Stand, m: Moved) -> Deed
    ensures { result ≡ deed_of s t m }
{
    Deed {
        tail: claims_tail(m),
        head: claims_head(m),
        mark: s.close && t.yes,
        word: t.far == 2,
        stamp: s.stamps && s.far == 2,
        hand: t.hand,
    }
}

#[tactic(auto, unfolding(crate::specs::Causes::since_with))]
fn since_with(d: Deed, s: Since) -> Since
    ensures { result ≡ since_with d s }
{
    Since {
        tail: d.tail || s.tail,
        head: d.head || s.head,
        mark: d.mark || s.mark,
    }
}

fn since_act(fresh: bool, d: Deed, s: Since) -> Since
    ensures { result ≡ cond fresh untouched (since_with d s) }
{
    if fresh { UNTOUCHED } else { since_with(d, s) }
}

#[tactic(auto, unfolding(crate::specs::Causes::own_act))]
fn own_act(others: bool, d: Deed, x: Watch) -> Watch
    ensures { result ≡ own_act others d x }
{
    Watch {
        word: since_act(d.word, d, x.word),
        stamp: since_act(d.stamp, d, x.stamp),
        others: if d.stamp { others } else { x.others },
        hand: d.hand,
    }
}

#[tactic(auto, unfolding(crate::specs::Causes::other_act))]
fn other_act(d: Deed, x: Watch) -> Watch
    ensures { result ≡ other_act d x }
{
    Watch {
        word: since_with(d, x.word),
        stamp: since_with(d, x.stamp),
        ..x
    }
}

fn watch_with(own: bool, others: bool, d: Deed, x: Watch) -> Watch
    ensures { result ≡ watch_with own others d x }
{
    if own {
        own_act(others, d, x)
    } else {
        other_act(d, x)
    }
}

pub fn start() -> Watches
    ensures { result ≡ start }
{
    Watches {
        each: [UNWATCHED; WATCHED],
    }
}

fn watch_of(xs: [Watch; WATCHED], w: u64) -> Watch
    ensures { result ≡ watch_of xs w }
{
    if w < WATCHED as u64 {
        xs[w as usize]
    } else {
        UNWATCHED
    }
}

fn others_hold(xs: [Watch; WATCHED], w: u64) -> bool
    ensures { result ≡ others_hold xs w }
{
    for (i, x) in xs.iter().enumerate() {
        let own = i as u64 == w;
        if !own && x.hand {
            return true;
        }
    }
    false
}

fn watch_all(xs: [Watch; WATCHED], w: u64, d: Deed) -> [Watch; WATCHED]
    ensures { result ≡ watched_of w d xs }
{
    let others = others_hold(xs, w);
    let mut now = xs;
    for (i, x) in xs.iter().enumerate() {
        now[i] = watch_with(i as u64 == w, others, d, *x);
    }
    now
}

fn own_in(end: Moved, s: Since) -> bool
    ensures { result ≡ own_in end s }
{
    match end {
        Moved::Neither => false,
        Moved::Tail => s.tail || s.mark,
        Moved::Head => s.head,
    }
}

fn other_in(end: Moved, s: Since) -> bool
    ensures { result ≡ other_in end s }
{
    match end {
        Moved::Neither => false,
        Moved::Tail => s.head,
        Moved::Head => s.tail,
    }
}

fn scheduled(l: Loss) -> bool
    ensures { result ≡ scheduled l }
{
    matches!(l, Loss::BySchedule)
}

#[tactic(auto, unfolding(crate::specs::Causes::causes_of))]
fn causes_of(s: Stand, x: Watch, y: Watch, l: Loss) -> Causes
    ensures { result ≡ causes_of s x y l }
{
    Causes {
        schedule: s.stamps && scheduled(l),
        own: own_in(s.end, x.word),
        other: s.stamps && other_in(s.end, y.stamp),
        hand: s.stamps && y.others,
    }
}

// An act of worker w that led from one place to the other and lost this: what is then kept, whether it goes back, and the causes.
#[tactic(auto, unfolding(crate::specs::Causes::named_of))]
pub fn name_causes(ws: Watches, w: u64, before: Place, after: Place, loss: Loss) -> Named
    ensures { result ≡ named_of ws w before after loss }
{
    let s = stand_of(before);
    let stands = bounded_places::view_of(after);
    let t = stands.stand;
    let d = deed_of(s, t, stands.moved);
    let each = watch_all(ws.each, w, d);
    Named {
        watches: Watches { each },
        back: goes_back(s, t),
        causes: causes_of(s, watch_of(ws.each, w), watch_of(each, w), loss),
    }
}
