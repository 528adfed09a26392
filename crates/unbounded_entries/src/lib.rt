// One entry: why it is refused, or where it goes and what it does there.
#![tactic(auto)]

ghost use Rattle.std.specs.Prelude.{◌≡◌, ◌<◌};
ghost use Rattle.queue_entries.specs.Limits.{meter_most};
ghost use Rattle.unbounded_words.specs.Words.{sizes};
ghost use Rattle.unbounded_entries.specs.Aims.{asking, unasked, ask_of, aimed, turned_away, way_acts, way_of, aim_at, leaves, done_by, done_of};
ghost use Rattle.unbounded_entries.specs.Looks.{looked, look_block, look_slot, look_uses, look_at, fits_at, same_pointer, same_header, tallied};

use queue_entries::{Entry, Order, Verdict};
use unbounded_acts::Acted;
use unbounded_places::{Block, Ends, Place, Slot, Uses, View, Worker};
use unbounded_words::Pointer;

// Code 1 is refusal 9: there is no force_push here.
pub const FORCE_PUSH: u64 = 1;

// Refusals 6, 9 and 3 of an entry (0: none of them); else whose it is, and what it asks.
#[derive(Clone, Copy)]
pub struct Ask {
    pub refusal: u64,
    pub worker: u64,
    pub order: Order,
}

fn asking(worker: u64, o: Order) -> Ask
    ensures { result ≡ asking worker o }
{
    Ask {
        refusal: 0,
        worker,
        order: o,
    }
}

fn unasked(number: u64) -> Ask
    ensures { result ≡ unasked number }
{
    Ask {
        refusal: number,
        worker: 0,
        order: Order::Act(false),
    }
}

pub fn ask_of(sound: bool, count: u64, first: u64, second: u64) -> Ask
    ensures { result ≡ ask_of sound count first second }
{
    if !sound {
        return unasked(6);
    }
    let Entry::Asks(worker, order) = queue_entries::entry_but(FORCE_PUSH, first, second) else {
        return unasked(9);
    };
    if count <= worker {
        return unasked(3);
    }
    asking(worker, order)
}

// Why an entry is refused (0: it is not); else whose it is, what it asks, its block and slot, whether it takes the block, and the meter after it.
#[derive(Clone, Copy)]
pub struct Aim {
    pub refusal: u64,
    pub worker: u64,
    pub order: Order,
    pub takes: bool,
    pub block: u64,
    pub slot: u64,
    pub meter: u64,
}

fn aimed(worker: u64, o: Order, takes: bool, k: u64, i: u64, meter: u64) -> Aim
    ensures { result ≡ aimed worker o takes k i meter }
{
    Aim {
        refusal: 0,
        worker,
        order: o,
        takes,
        block: k,
        slot: i,
        meter,
    }
}

fn turned_away(number: u64) -> Aim
    ensures { result ≡ turned_away number }
{
    Aim {
        refusal: number,
        worker: 0,
        order: Order::Act(false),
        takes: false,
        block: 0,
        slot: 0,
        meter: 0,
    }
}

fn way_acts(meter: u64, w: u64, lose: bool, view: View) -> Aim
    requires { meter < meter_most }
    ensures { result ≡ way_acts meter w lose view }
{
    let k = unbounded_machine::block_used(view.uses);
    let i = unbounded_machine::slot_used(view.uses);
    aimed(w, Order::Act(lose), view.takes, k, i, meter + 1)
}

// The aim but for the block that is taken. The order of the refusals: 6, 9, 3, then 4, or 5, 7, 8 and 23.
pub fn way_of(ask: Ask, worker: Worker, meter: u64) -> Aim
    ensures { result ≡ way_of sizes meter ask worker.place }
{
    if 0 < ask.refusal {
        return turned_away(ask.refusal);
    }
    let w = ask.worker;
    let view = unbounded_views::view_before(worker.place);
    match queue_entries::verdict_for(meter, view.busy, view.weak, ask.order) {
        Verdict::Refuse(number) => turned_away(number),
        Verdict::Start(call) => aimed(w, Order::Begin(call), false, 0, 0, meter),
        Verdict::Move(lose) => way_acts(meter, w, lose, view),
    }
}

// 23: a call needs a block and none is free. k is the lowest free block, where one is taken.
pub fn aim_of(way: Aim, k: u64) -> Aim
    ensures { result ≡ aim_at sizes way k }
{
    if !way.takes {
        return way;
    }
    if k < (unbounded_words::BLOCKS as u64) {
        aimed(way.worker, way.order, true, k, 0, way.meter)
    } else {
        turned_away(23)
    }
}

// What an entry leaves: the ends, the header of its block, its slot and its worker's record.
#[derive(Clone, Copy)]
pub struct Done {
    pub ends: Ends,
    pub block: Block,
    pub slot: Slot,
    pub worker: Worker,
}

fn leaves(e: Ends, g: Block, s: Slot, p: Place) -> Done
    ensures { result ≡ leaves e g s p }
{
    Done {
        ends: e,
        block: g,
        slot: s,
        worker: Worker { place: p },
    }
}

fn done_by(a: Acted) -> Done
    ensures { result ≡ done_by a }
{
    leaves(a.ends, a.block, a.slot, a.place)
}

pub fn done_at(e: Ends, k: u64, g: Block, s: Slot, worker: Worker, o: Order) -> Done
    ensures { result ≡ done_of sizes e k g s worker o }
{
    match o {
        Order::Begin(call) => leaves(e, g, s, unbounded_places::first_place(call)),
        Order::Act(lose) => done_by(unbounded_table::act_at(e, k, g, s, worker.place, lose)),
    }
}

// What is asked of a record after its entry: whether it is busy, and whether its next act fits, which the header of a block decides, or nothing more.
#[derive(Clone, Copy)]
pub struct Look {
    pub busy: bool,
    pub asks: bool,
    pub fits: bool,
    pub block: u64,
}

fn looked(busy: bool, asks: bool, fits: bool, k: u64) -> Look
    ensures { result ≡ looked busy asks fits k }
{
    Look {
        busy,
        asks,
        fits,
        block: k,
    }
}

fn look_block(k: u64) -> Look
    ensures { result ≡ look_block sizes k }
{
    if k < (unbounded_words::BLOCKS as u64) {
        looked(true, true, true, k)
    } else {
        looked(true, false, false, 0)
    }
}

fn look_slot(k: u64, i: u64) -> Look
    ensures { result ≡ look_slot sizes k i }
{
    if i < unbounded_words::SLOTS {
        look_block(k)
    } else {
        looked(true, false, false, 0)
    }
}

fn look_uses(u: Uses) -> Look
    ensures { result ≡ look_uses sizes u }
{
    match u {
        Uses::Nothing => looked(true, false, true, 0),
        Uses::Block(k) => look_block(k),
        Uses::Slot(k, i) => look_slot(k, i),
    }
}

pub fn look_at(worker: Worker) -> Look
    ensures { result ≡ look_at sizes worker.place }
{
    let v = unbounded_views::view_after(worker.place);
    if v.busy {
        look_uses(v.uses)
    } else {
        looked(false, false, true, 0)
    }
}

// By the header of the block that is looked at.
pub fn fits_at(look: Look, g: Block) -> bool
    ensures { result ≡ fits_at look g }
{
    if look.asks { !g.free } else { look.fits }
}

fn same_pointer(p: Pointer, q: Pointer) -> bool
    ensures { result ≡ same_pointer sizes p q }
{
    if unbounded_words::is_none(p) {
        unbounded_words::is_none(q)
    } else if unbounded_words::is_none(q) {
        false
    } else {
        unbounded_words::number(p) == unbounded_words::number(q)
    }
}

pub fn same_header(a: Block, b: Block) -> bool
    ensures { result ≡ same_header sizes a b }
{
    if !same_pointer(a.next, b.next) {
        return false;
    }
    if a.free { b.free } else { !b.free }
}

// How many are busy after an entry: one more where it begins a call, one fewer where its act was the call's last.
pub fn tally(busy: u64, o: Order, after: bool) -> u64
    ensures { result ≡ tallied busy o after }
{
    match o {
        Order::Begin(_) => busy.wrapping_add(1),
        Order::Act(_) => {
            if after {
                busy
            } else {
                busy.wrapping_add(u64::MAX)
            }
        }
    }
}
