// One act: the action of the source at a worker's place, with the local decisions up to the next.
// One function for each place of request 12's table that decides something; those of pop are crate unbounded_pops, and crate unbounded_table has which is
// taken where.
#![tactic(auto)]

ghost use Rattle.std.specs.Prelude.{◌≡◌, ◌+◌};
ghost use Rattle.unbounded_words.specs.Words.{sizes, later, with_mark};
ghost use Rattle.unbounded_places.specs.declared.Place.TheVariants.{Idle};
ghost use Rattle.unbounded_acts.specs.Acts.{leave, head_to, front_to, tail_to, back_to_words, next_to, freed, new_block, state_to, value_to, has, with, WRITE, READ, DESTROY, first_or, answered, lacks_next, push_from, set_aside, claimed, yes_no, act_u2, act_u3, act_u4, act_u5, act_u6, act_u7, act_u9, act_u10, act_u11, act_u12, act_u13, act_u14, act_u15, act_len3, act_empty2, act_close1, act_is_closed1};

use unbounded_places::{Answer, Block, Ends, Place, Slot};
use unbounded_words::{Index, Pointer};

// What an act leaves: the ends, the header of the block it was handed, the slot, and the place its worker goes to.
#[derive(Clone, Copy)]
pub struct Acted {
    pub ends: Ends,
    pub block: Block,
    pub slot: Slot,
    pub place: Place,
}

pub fn leave(e: Ends, g: Block, s: Slot, p: Place) -> Acted
    ensures { result ≡ leave e g s p }
{
    Acted {
        ends: e,
        block: g,
        slot: s,
        place: p,
    }
}

// A looker's answer.
fn told(e: Ends, g: Block, s: Slot, yes: bool) -> Acted
    ensures { result ≡ leave e g s (Idle (yes_no yes)) }
{
    if yes {
        leave(e, g, s, Place::Idle(Answer::Yes))
    } else {
        leave(e, g, s, Place::Idle(Answer::No))
    }
}

// The kinds of effect.

pub fn head_to(e: Ends, w: Index) -> Ends
    ensures { result ≡ head_to e w }
{
    Ends { head: w, ..e }
}

pub fn front_to(e: Ends, b: Pointer) -> Ends
    ensures { result ≡ front_to e b }
{
    Ends { front: b, ..e }
}

fn tail_to(e: Ends, w: Index) -> Ends
    ensures { result ≡ tail_to e w }
{
    Ends { tail: w, ..e }
}

fn tail_to_next(e: Ends, t: Index) -> Ends
    ensures { result ≡ tail_to e (later t) }
{
    tail_to(e, unbounded_words::next(t))
}

fn tail_to_marked(e: Ends) -> Ends
    ensures { result ≡ tail_to e (with_mark e.tail) }
{
    tail_to(e, unbounded_words::with_mark(e.tail))
}

fn back_to(e: Ends, b: Pointer) -> Ends
    ensures { result ≡ back_to_words e b }
{
    Ends { back: b, ..e }
}

fn next_to(g: Block, b: Pointer) -> Block
    ensures { result ≡ next_to g b }
{
    Block { next: b, ..g }
}

pub fn freed(g: Block) -> Block
    ensures { result ≡ freed g }
{
    Block { free: true, ..g }
}

fn new_block() -> Block
    ensures { result ≡ new_block }
{
    Block {
        next: Pointer::None,
        free: false,
    }
}

pub fn has_write(s: Slot) -> bool
    ensures { result ≡ has WRITE s.state }
{
    s.state / 1 % 2 == 1
}

pub fn has_read(s: Slot) -> bool
    ensures { result ≡ has READ s.state }
{
    s.state / 2 % 2 == 1
}

pub fn has_destroy(s: Slot) -> bool
    ensures { result ≡ has DESTROY s.state }
{
    s.state / 4 % 2 == 1
}

fn or_write(n: u64) -> u64
    ensures { result ≡ with WRITE n }
{
    if n / 1 % 2 == 1 { n } else { n + 1 }
}

fn set_write(s: Slot) -> Slot
    ensures { result ≡ state_to s (with WRITE s.state) }
{
    Slot {
        state: or_write(s.state),
        ..s
    }
}

fn or_read(n: u64) -> u64
    ensures { result ≡ with READ n }
{
    if n / 2 % 2 == 1 { n } else { n + 2 }
}

pub fn set_read(s: Slot) -> Slot
    ensures { result ≡ state_to s (with READ s.state) }
{
    Slot {
        state: or_read(s.state),
        ..s
    }
}

fn or_destroy(n: u64) -> u64
    ensures { result ≡ with DESTROY n }
{
    if n / 4 % 2 == 1 { n } else { n + 4 }
}

pub fn set_destroy(s: Slot) -> Slot
    ensures { result ≡ state_to s (with DESTROY s.state) }
{
    Slot {
        state: or_destroy(s.state),
        ..s
    }
}

fn value_to(s: Slot, v: u64) -> Slot
    ensures { result ≡ value_to s v }
{
    Slot { value: v, ..s }
}

// push

fn first_or(n: Pointer, t: Index, b: Pointer, item: u64) -> Place
    ensures { result ≡ first_or n t b item }
{
    if unbounded_words::is_none(b) {
        Place::U4(n, t, item)
    } else {
        Place::U7(n, t, b, item)
    }
}

fn answered(n: Pointer, a: Answer) -> Place
    ensures { result ≡ answered n a }
{
    if unbounded_words::is_none(n) {
        Place::Idle(a)
    } else {
        Place::U14(n, a)
    }
}

fn lacks_next(n: Pointer, t: Index) -> bool
    ensures { result ≡ lacks_next sizes n t }
{
    unbounded_words::last_slot(t) && unbounded_words::is_none(n)
}

// Top of push's loop.
fn push_from(n: Pointer, t: Index, b: Pointer, item: u64) -> Place
    ensures { result ≡ push_from sizes n t b item }
{
    if unbounded_words::marked(t) {
        return answered(n, Answer::Closed(item));
    }
    if unbounded_words::past_slots(t) {
        return Place::U1(n, item);
    }
    if lacks_next(n, t) {
        Place::U3(t, b, item)
    } else {
        first_or(n, t, b, item)
    }
}

pub fn u2(e: Ends, g: Block, s: Slot, n: Pointer, t: Index, item: u64) -> Acted
    ensures { result ≡ act_u2 sizes e g s n t item }
{
    leave(e, g, s, push_from(n, t, e.back, item))
}

pub fn u3(e: Ends, k: u64, s: Slot, t: Index, b: Pointer, item: u64) -> Acted
    ensures { result ≡ act_u3 e k s t b item }
{
    leave(e, new_block(), s, first_or(Pointer::To(k), t, b, item))
}

pub fn u4(e: Ends, k: u64, s: Slot, n: Pointer, t: Index, item: u64) -> Acted
    ensures { result ≡ act_u4 e k s n t item }
{
    leave(e, new_block(), s, Place::U5(n, t, Pointer::To(k), item))
}

fn set_aside(n: Pointer, new: Pointer, item: u64) -> Place
    ensures { result ≡ set_aside n new item }
{
    if unbounded_words::is_none(n) {
        Place::U1(new, item)
    } else {
        Place::U15(n, new, item)
    }
}

pub fn u5(e: Ends, g: Block, s: Slot, n: Pointer, t: Index, new: Pointer, item: u64) -> Acted
    ensures { result ≡ act_u5 e g s n t new item }
{
    if unbounded_words::is_none(e.back) {
        leave(back_to(e, new), g, s, Place::U6(n, t, new, item))
    } else {
        leave(e, g, s, set_aside(n, new, item))
    }
}

pub fn u6(e: Ends, g: Block, s: Slot, n: Pointer, t: Index, new: Pointer, item: u64) -> Acted
    ensures { result ≡ act_u6 e g s n t new item }
{
    leave(front_to(e, new), g, s, Place::U7(n, t, new, item))
}

fn claimed(n: Pointer, t: Index, b: Pointer, item: u64) -> Place
    ensures { result ≡ claimed sizes n t b item }
{
    if unbounded_words::last_slot(t) {
        Place::U9(n, t, b, item)
    } else {
        Place::U12(n, t, b, item)
    }
}

pub fn u7(
    e: Ends,
    g: Block,
    s: Slot,
    n: Pointer,
    t: Index,
    b: Pointer,
    item: u64,
    lose: bool,
) -> Acted
    ensures { result ≡ act_u7 sizes e g s n t b item lose }
{
    if e.tail == t {
        if lose {
            leave(e, g, s, Place::U8(n, t, item))
        } else {
            leave(tail_to_next(e, t), g, s, claimed(n, t, b, item))
        }
    } else {
        leave(e, g, s, Place::U8(n, e.tail, item))
    }
}

pub fn u9(e: Ends, g: Block, s: Slot, n: Pointer, t: Index, b: Pointer, item: u64) -> Acted
    ensures { result ≡ act_u9 e g s n t b item }
{
    leave(back_to(e, n), g, s, Place::U10(n, t, b, item))
}

pub fn u10(e: Ends, g: Block, s: Slot, n: Pointer, t: Index, b: Pointer, item: u64) -> Acted
    ensures { result ≡ act_u10 e g s n t b item }
{
    leave(tail_to_next(e, e.tail), g, s, Place::U11(n, t, b, item))
}

pub fn u11(e: Ends, g: Block, s: Slot, n: Pointer, t: Index, b: Pointer, item: u64) -> Acted
    ensures { result ≡ act_u11 e g s n t b item }
{
    leave(e, next_to(g, n), s, Place::U12(Pointer::None, t, b, item))
}

pub fn u12(e: Ends, g: Block, s: Slot, n: Pointer, t: Index, b: Pointer, item: u64) -> Acted
    ensures { result ≡ act_u12 e g s n t b item }
{
    leave(e, g, value_to(s, item), Place::U13(n, t, b))
}

pub fn u13(e: Ends, g: Block, s: Slot, n: Pointer) -> Acted
    ensures { result ≡ act_u13 e g s n }
{
    leave(e, g, set_write(s), answered(n, Answer::Pushed))
}

pub fn u14(e: Ends, g: Block, s: Slot, a: Answer) -> Acted
    ensures { result ≡ act_u14 e g s a }
{
    leave(e, freed(g), s, Place::Idle(a))
}

pub fn u15(e: Ends, g: Block, s: Slot, new: Pointer, item: u64) -> Acted
    ensures { result ≡ act_u15 e g s new item }
{
    leave(e, freed(g), s, Place::U1(new, item))
}

// The lookers.

pub fn len3(e: Ends, g: Block, s: Slot, t: Index, h: Index) -> Acted
    ensures { result ≡ act_len3 sizes e g s t h }
{
    if e.tail == t {
        leave(
            e,
            g,
            s,
            Place::Idle(Answer::Len(unbounded_words::count(t, h))),
        )
    } else {
        leave(e, g, s, Place::Len1)
    }
}

pub fn empty2(e: Ends, g: Block, s: Slot, h: Index) -> Acted
    ensures { result ≡ act_empty2 e g s h }
{
    told(e, g, s, unbounded_words::same_position(h, e.tail))
}

pub fn close1(e: Ends, g: Block, s: Slot) -> Acted
    ensures { result ≡ act_close1 e g s }
{
    if unbounded_words::marked(e.tail) {
        leave(e, g, s, Place::Idle(Answer::No))
    } else {
        leave(tail_to_marked(e), g, s, Place::Idle(Answer::Yes))
    }
}

pub fn is_closed1(e: Ends, g: Block, s: Slot) -> Acted
    ensures { result ≡ act_is_closed1 e g s }
{
    told(e, g, s, unbounded_words::marked(e.tail))
}
