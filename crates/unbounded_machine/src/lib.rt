// The machine: head and tail, a pool of blocks, the workers' records and the meter; and what each rule asks of it.
#![tactic(auto)]

ghost use Rattle.std.specs.Prelude.{◌≡◌, true, ◌<◌};
ghost use Rattle.unbounded_words.specs.Words.{sizes};
ghost use Rattle.unbounded_machine.specs.Machine.{fresh_of, blank, refused, accepted};
ghost use Rattle.unbounded_machine.specs.Drop.{last_fits, walk_of};
ghost use Rattle.unbounded_machine.specs.Broken.{uses_fit, record_fits, records_fit, all_idle, drop_fits, broken_in};
ghost use Rattle.unbounded_machine.specs.Machine.{live};
ghost use Rattle.unbounded_machine.specs.Turn.{verdict_of, lowest_free, cleared, block_used, slot_used};

use queue_entries::{Order, Verdict};
use unbounded_places::{Answer, Block, Ends, Place, Slot, Uses, Worker};
use unbounded_words::{Index, Pointer};

#[derive(Clone, Copy)]
pub struct Machine {
    pub ends: Ends,
    // the pool: a header for each block, and the slots of all, those of block 0 first
    pub blocks: [Block; unbounded_words::BLOCKS],
    pub slots: [Slot; unbounded_words::POOL],
    pub workers: [Worker; queue_entries::WORKERS],
    // how many of the records are in use
    pub count: u64,
    // accepted acts since the machine was made
    pub meter: u64,
}

// A machine, and the number of the refusal; 0 where it was not refused.
#[derive(Clone, Copy)]
pub struct Did {
    pub refusal: u64,
    pub machine: Machine,
}

// What a schedule reports: the refusal and the entry's place, or 0 and the count of its entries.
#[derive(Clone, Copy)]
pub struct Ran {
    pub refusal: u64,
    pub place: u64,
    pub machine: Machine,
}

// One act of a run.
#[derive(Clone, Copy)]
pub struct Event {
    pub worker: u64,
    pub before: Place,
    pub after: Place,
}

// `Drop`'s walk: whether it uses only blocks that are not free, and how many items it meets.
#[derive(Clone, Copy)]
pub struct Dropped {
    pub sound: bool,
    pub count: u64,
}

pub fn refuse(m: Machine, number: u64) -> Did
    ensures { result ≡ refused number m }
{
    Did {
        refusal: number,
        machine: m,
    }
}

pub fn accept(m: Machine) -> Did
    ensures { result ≡ accepted m }
{
    Did {
        refusal: 0,
        machine: m,
    }
}

// `Unbounded::new`, a pool of which nothing is taken, workers idle.
pub fn fresh(workers: u64) -> Machine
    ensures { result ≡ fresh_of sizes workers }
{
    Machine {
        ends: Ends {
            head: Index(0),
            front: Pointer::None,
            tail: Index(0),
            back: Pointer::None,
        },
        blocks: [Block {
            next: Pointer::None,
            free: true,
        }; unbounded_words::BLOCKS],
        slots: [Slot { state: 0, value: 0 }; unbounded_words::POOL],
        workers: [Worker {
            place: Place::Idle(Answer::Nothing),
        }; queue_entries::WORKERS],
        count: workers,
        meter: 0,
    }
}

pub fn blank() -> Machine
    ensures { result ≡ blank sizes }
{
    fresh(0)
}

// Broken, part by part.

pub fn live(blocks: [Block; unbounded_words::BLOCKS], k: u64) -> bool
    ensures { result ≡ live sizes blocks k }
{
    k < (unbounded_words::BLOCKS as u64) && !blocks[k as usize].free
}

fn uses_fit(blocks: [Block; unbounded_words::BLOCKS], u: Uses) -> bool
    ensures { result ≡ uses_fit sizes blocks u }
{
    match u {
        Uses::Nothing => true,
        Uses::Block(k) => live(blocks, k),
        Uses::Slot(k, i) => i < unbounded_words::SLOTS && live(blocks, k),
    }
}

fn record_fits(blocks: [Block; unbounded_words::BLOCKS], p: Place, counted: bool) -> bool
    ensures { result ≡ record_fits sizes blocks p counted }
{
    let v = unbounded_places::view_of(p);
    if !v.busy {
        return true;
    }
    counted && uses_fit(blocks, v.uses)
}

pub fn records_fit(
    blocks: [Block; unbounded_words::BLOCKS],
    count: u64,
    workers: [Worker; queue_entries::WORKERS],
) -> bool
    ensures { result ≡ records_fit sizes blocks count workers }
{
    for (i, worker) in workers.iter().enumerate() {
        if !record_fits(blocks, worker.place, (i as u64) < count) {
            return false;
        }
    }
    true
}

pub fn all_idle(workers: [Worker; queue_entries::WORKERS]) -> bool
    ensures { result ≡ all_idle sizes workers }
{
    for worker in &workers {
        if unbounded_places::view_of(worker.place).busy {
            return false;
        }
    }
    true
}

fn last_fits(blocks: [Block; unbounded_words::BLOCKS], b: Pointer) -> bool
    ensures { result ≡ last_fits sizes blocks b }
{
    unbounded_words::is_none(b) || live(blocks, unbounded_words::number(b))
}

// The most steps of `Drop`'s walk: one more block than there are, each with its gap.
pub const STEPS: u64 = 2080;

// `Drop`, position by position. A block that it has dropped is free to it.
pub fn walk(e: Ends, pool: [Block; unbounded_words::BLOCKS]) -> Dropped
    ensures { result ≡ walk_of sizes e pool }
{
    let mut blocks = pool;
    let mut b = e.front;
    let mut h = unbounded_words::unmarked(e.head);
    let t = unbounded_words::unmarked(e.tail);
    let mut met = 0;
    for _ in 0..STEPS {
        if h == t {
            return Dropped {
                sound: last_fits(blocks, b),
                count: met,
            };
        }
        let k = unbounded_words::number(b);
        if (unbounded_words::BLOCKS as u64) <= k {
            return Dropped {
                sound: false,
                count: met,
            };
        }
        let g = blocks[k as usize];
        if g.free {
            return Dropped {
                sound: false,
                count: met,
            };
        }
        if unbounded_words::past_slots(h) {
            blocks[k as usize] = Block { free: true, ..g };
            b = g.next;
        } else {
            met += 1;
        }
        h = unbounded_words::next(h);
    }
    Dropped {
        sound: false,
        count: met,
    }
}

fn drop_fits(
    e: Ends,
    blocks: [Block; unbounded_words::BLOCKS],
    workers: [Worker; queue_entries::WORKERS],
) -> bool
    ensures { result ≡ drop_fits sizes e blocks workers }
{
    !all_idle(workers) || walk(e, blocks).sound
}

pub fn broken_in(
    e: Ends,
    blocks: [Block; unbounded_words::BLOCKS],
    workers: [Worker; queue_entries::WORKERS],
    count: u64,
) -> bool
    ensures { result ≡ broken_in sizes e blocks workers count }
{
    if !queue_entries::in_limits(count, queue_entries::WORKERS as u64) {
        return true;
    }
    if !records_fit(blocks, count, workers) {
        return true;
    }
    !drop_fits(e, blocks, workers)
}

// Entries and acts.

// What becomes of a worker that stands at p.
pub fn verdict_of(meter: u64, p: Place, o: Order) -> Verdict
    ensures { result ≡ verdict_of sizes meter p o }
{
    let v = unbounded_places::view_of(p);
    queue_entries::verdict_for(meter, v.busy, v.weak, o)
}

pub fn lowest_free(blocks: [Block; unbounded_words::BLOCKS]) -> u64
    ensures { result ≡ lowest_free sizes blocks }
{
    for (k, block) in blocks.iter().enumerate() {
        if block.free {
            return k as u64;
        }
    }
    unbounded_words::BLOCKS as u64
}

// The slots of block k as `Block::new` makes them.
pub fn cleared(pool: [Slot; unbounded_words::POOL], k: u64) -> [Slot; unbounded_words::POOL]
    requires { k < 64 }
    ensures { result ≡ cleared sizes pool k }
{
    let mut slots = pool;
    for i in 0..unbounded_words::SLOTS {
        slots[(k * unbounded_words::SLOTS + i) as usize] = Slot { state: 0, value: 0 };
    }
    slots
}

pub fn block_used(u: Uses) -> u64
    ensures { result ≡ block_used u }
{
    match u {
        Uses::Nothing => 0,
        Uses::Block(k) | Uses::Slot(k, _) => k,
    }
}

pub fn slot_used(u: Uses) -> u64
    ensures { result ≡ slot_used u }
{
    match u {
        Uses::Nothing | Uses::Block(_) => 0,
        Uses::Slot(_, i) => i,
    }
}
