// The acts of pop, as crate unbounded_acts has those of push: the action of the source at a worker's place, with the local decisions up to the next.
#![tactic(auto)]

ghost use Rattle.std.specs.Prelude.{◌≡◌, ◌+◌};
ghost use Rattle.unbounded_words.specs.Words.{sizes};
ghost use Rattle.unbounded_acts.specs.Acts.{take_or, pop_from, new_head, taken, next_index, destroy_from, read_out_of, destroy_if, act_v2, act_v3, act_v4, act_v6, act_v7, act_v8, act_v9, act_v10, act_v11, act_v12, act_v13, act_v14, act_v15};

use unbounded_acts::Acted;
use unbounded_places::{Answer, Block, Ends, Place, Slot};
use unbounded_words::{Index, Pointer};

fn take_or(h: Index, b: Pointer, new: Index) -> Place
    ensures { result ≡ take_or h b new }
{
    if unbounded_words::is_none(b) {
        Place::V1
    } else {
        Place::V4(h, b, new)
    }
}

// Top of pop's loop.
fn pop_from(h: Index, b: Pointer) -> Place
    ensures { result ≡ pop_from sizes h b }
{
    if unbounded_words::past_slots(h) {
        return Place::V1;
    }
    if unbounded_words::marked(h) {
        take_or(h, b, unbounded_words::next(h))
    } else {
        Place::V3(h, b)
    }
}

pub fn v2(e: Ends, g: Block, s: Slot, h: Index) -> Acted
    ensures { result ≡ act_v2 sizes e g s h }
{
    unbounded_acts::leave(e, g, s, pop_from(h, e.front))
}

fn new_head(h: Index, t: Index) -> Index
    ensures { result ≡ new_head sizes h t }
{
    let next = unbounded_words::next(h);
    if unbounded_words::same_block(h, t) {
        next
    } else {
        unbounded_words::with_mark(next)
    }
}

pub fn v3(e: Ends, g: Block, s: Slot, h: Index, b: Pointer) -> Acted
    ensures { result ≡ act_v3 sizes e g s h b }
{
    let t = e.tail;
    if unbounded_words::same_position(h, t) {
        if unbounded_words::marked(t) {
            unbounded_acts::leave(e, g, s, Place::Idle(Answer::PopClosed))
        } else {
            unbounded_acts::leave(e, g, s, Place::Idle(Answer::Empty))
        }
    } else {
        unbounded_acts::leave(e, g, s, take_or(h, b, new_head(h, t)))
    }
}

fn taken(h: Index, b: Pointer, new: Index) -> Place
    ensures { result ≡ taken sizes h b new }
{
    if unbounded_words::last_slot(h) {
        Place::V6(h, b, new)
    } else {
        Place::V10(h, b)
    }
}

pub fn v4(e: Ends, g: Block, s: Slot, h: Index, b: Pointer, new: Index, lose: bool) -> Acted
    ensures { result ≡ act_v4 sizes e g s h b new lose }
{
    if e.head == h {
        if lose {
            unbounded_acts::leave(e, g, s, Place::V5(h))
        } else {
            unbounded_acts::leave(unbounded_acts::head_to(e, new), g, s, taken(h, b, new))
        }
    } else {
        unbounded_acts::leave(e, g, s, Place::V5(e.head))
    }
}

pub fn v6(e: Ends, g: Block, s: Slot, h: Index, b: Pointer, new: Index) -> Acted
    ensures { result ≡ act_v6 e g s h b new }
{
    let next = g.next;
    if unbounded_words::is_none(next) {
        unbounded_acts::leave(e, g, s, Place::V6(h, b, new))
    } else {
        unbounded_acts::leave(e, g, s, Place::V7(h, b, new, next))
    }
}

fn next_index(new: Index, b: Pointer) -> Index
    ensures { result ≡ next_index new b }
{
    let i = unbounded_words::next(unbounded_words::unmarked(new));
    if unbounded_words::is_none(b) {
        i
    } else {
        unbounded_words::with_mark(i)
    }
}

pub fn v7(e: Ends, g: Block, s: Slot, h: Index, b: Pointer, new: Index, next: Pointer) -> Acted
    ensures { result ≡ act_v7 e g s h b new next }
{
    unbounded_acts::leave(e, g, s, Place::V8(h, b, next, next_index(new, g.next)))
}

pub fn v8(e: Ends, g: Block, s: Slot, h: Index, b: Pointer, next: Pointer, i: Index) -> Acted
    ensures { result ≡ act_v8 e g s h b next i }
{
    unbounded_acts::leave(unbounded_acts::front_to(e, next), g, s, Place::V9(h, b, i))
}

pub fn v9(e: Ends, g: Block, s: Slot, h: Index, b: Pointer, i: Index) -> Acted
    ensures { result ≡ act_v9 e g s h b i }
{
    unbounded_acts::leave(unbounded_acts::head_to(e, i), g, s, Place::V10(h, b))
}

pub fn v10(e: Ends, g: Block, s: Slot, h: Index, b: Pointer) -> Acted
    ensures { result ≡ act_v10 e g s h b }
{
    if unbounded_acts::has_write(s) {
        unbounded_acts::leave(e, g, s, Place::V11(h, b))
    } else {
        unbounded_acts::leave(e, g, s, Place::V10(h, b))
    }
}

// Destroy from the slot after i.
fn destroy_after(b: Pointer, i: u64, value: u64) -> Place
    ensures { result ≡ destroy_from sizes b (i + 1) value }
{
    if i < unbounded_words::SLOTS - 2 {
        Place::V13(b, i + 1, value)
    } else {
        Place::V15(b, value)
    }
}

fn read_out(h: Index, b: Pointer, value: u64) -> Place
    ensures { result ≡ read_out_of sizes h b value }
{
    if unbounded_words::last_slot(h) {
        Place::V13(b, 0, value)
    } else {
        Place::V12(h, b, value)
    }
}

pub fn v11(e: Ends, g: Block, s: Slot, h: Index, b: Pointer) -> Acted
    ensures { result ≡ act_v11 sizes e g s h b }
{
    unbounded_acts::leave(e, g, s, read_out(h, b, s.value))
}

fn destroy_if(set: bool, b: Pointer, i: u64, value: u64) -> Place
    ensures { result ≡ destroy_if sizes set b i value }
{
    if set {
        destroy_after(b, i, value)
    } else {
        Place::Idle(Answer::Popped(value))
    }
}

pub fn v12(e: Ends, g: Block, s: Slot, h: Index, b: Pointer, value: u64) -> Acted
    ensures { result ≡ act_v12 sizes e g s h b value }
{
    let p = destroy_if(
        unbounded_acts::has_destroy(s),
        b,
        unbounded_words::offset(h),
        value,
    );
    unbounded_acts::leave(e, g, unbounded_acts::set_read(s), p)
}

pub fn v13(e: Ends, g: Block, s: Slot, b: Pointer, i: u64, value: u64) -> Acted
    ensures { result ≡ act_v13 sizes e g s b i value }
{
    if unbounded_acts::has_read(s) {
        unbounded_acts::leave(e, g, s, destroy_after(b, i, value))
    } else {
        unbounded_acts::leave(e, g, s, Place::V14(b, i, value))
    }
}

pub fn v14(e: Ends, g: Block, s: Slot, b: Pointer, i: u64, value: u64) -> Acted
    ensures { result ≡ act_v14 sizes e g s b i value }
{
    let p = destroy_if(unbounded_acts::has_read(s), b, i, value);
    unbounded_acts::leave(e, g, unbounded_acts::set_destroy(s), p)
}

pub fn v15(e: Ends, g: Block, s: Slot, value: u64) -> Acted
    ensures { result ≡ act_v15 e g s value }
{
    unbounded_acts::leave(
        e,
        unbounded_acts::freed(g),
        s,
        Place::Idle(Answer::Popped(value)),
    )
}
