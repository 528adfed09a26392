// What a run of entries keeps, so that refusal 6 is judged by what an entry can have changed: how many records are busy, and where `Drop`'s walk is known
// to be sound.
#![tactic(auto)]

ghost use Rattle.std.specs.Prelude.{◌≡◌, false, cond};
ghost use Rattle.unbounded_words.specs.Words.{sizes};
ghost use Rattle.unbounded_judged.specs.Judged.{busy_in, unknown, in_order, same_laps, same_front, still_of, due_of, linked_from, linked_of, noted, rest_of};

use unbounded_places::{Block, Ends, Worker};

pub fn busy_in(workers: [Worker; queue_entries::WORKERS]) -> u64
    ensures { result ≡ busy_in sizes workers }
{
    let mut n = 0;
    for worker in &workers {
        if unbounded_places::view_of(worker.place).busy {
            n += 1;
        }
    }
    n
}

pub fn both(a: bool, b: bool) -> bool
    ensures { result ≡ cond a b false }
{
    a && b
}

// Where `Drop`'s walk is sure to be sound with the headers as they are: head's block, and the laps of head and of tail.
#[derive(Clone, Copy)]
pub struct Known {
    pub sure: bool,
    pub front: u64,
    pub head: u64,
    pub tail: u64,
}

pub fn unknown() -> Known
    ensures { result ≡ unknown }
{
    Known {
        sure: false,
        front: 0,
        head: 0,
        tail: 0,
    }
}

fn in_order(e: Ends) -> bool
    ensures { result ≡ in_order e }
{
    let h = unbounded_words::unmarked(e.head);
    let t = unbounded_words::unmarked(e.tail);
    h.0 <= t.0
}

fn same_laps(known: Known, e: Ends) -> bool
    ensures { result ≡ same_laps known e }
{
    let h = unbounded_words::unmarked(e.head);
    let t = unbounded_words::unmarked(e.tail);
    h.0 / 64 == known.head && t.0 / 64 == known.tail
}

fn same_front(known: Known, e: Ends) -> bool
    ensures { result ≡ same_front sizes known e }
{
    known.sure && unbounded_words::number(e.front) == known.front
}

fn still(known: Known, e: Ends) -> bool
    ensures { result ≡ still_of sizes known e }
{
    if !same_front(known, e) {
        return false;
    }
    same_laps(known, e) && in_order(e)
}

// With nobody busy the walk is judged where it is not known.
pub fn due(busy: u64, known: Known, e: Ends) -> bool
    ensures { result ≡ due_of sizes busy known e }
{
    busy == 0 && !still(known, e)
}

// From block k so many blocks on, none of them free, to one that has no next. No block comes twice, since from it the end would stand at two distances.
fn linked_from(blocks: [Block; unbounded_words::BLOCKS], front: u64, laps: u64) -> bool
    ensures { result ≡ linked_from sizes laps blocks front }
{
    let mut k = front;
    for _ in 0..laps {
        if (unbounded_words::BLOCKS as u64) <= k {
            return false;
        }
        let g = blocks[k as usize];
        if g.free {
            return false;
        }
        k = unbounded_words::number(g.next);
    }
    if (unbounded_words::BLOCKS as u64) <= k {
        return false;
    }
    let g = blocks[k as usize];
    if g.free {
        return false;
    }
    (unbounded_words::BLOCKS as u64) <= unbounded_words::number(g.next)
}

// So many laps have all words.
const LAPS: u64 = 0x400_0000_0000_0000;

// As many blocks as laps, from head's block on: fewer than there are, and no word wraps on the way.
fn linked(e: Ends, blocks: [Block; unbounded_words::BLOCKS]) -> bool
    ensures { result ≡ linked_of sizes e blocks }
{
    let h = unbounded_words::unmarked(e.head);
    let t = unbounded_words::unmarked(e.tail);
    let k = unbounded_words::number(e.front);
    let first = h.0 / 64;
    let last = t.0 / 64;
    if t.0 < h.0 {
        return false;
    }
    if LAPS <= last {
        return false;
    }
    last - first < (unbounded_words::BLOCKS as u64) && linked_from(blocks, k, last - first)
}

fn noted(e: Ends) -> Known
    ensures { result ≡ noted sizes e }
{
    let h = unbounded_words::unmarked(e.head);
    let t = unbounded_words::unmarked(e.tail);
    Known {
        sure: true,
        front: unbounded_words::number(e.front),
        head: h.0 / 64,
        tail: t.0 / 64,
    }
}

// `Drop`'s walk, and what is known of it from now on.
#[derive(Clone, Copy)]
pub struct Rest {
    pub sound: bool,
    pub known: Known,
}

// By blocks where they are linked, else position by position.
pub fn rest_of(e: Ends, blocks: [Block; unbounded_words::BLOCKS]) -> Rest
    ensures { result ≡ rest_of sizes e blocks }
{
    if linked(e, blocks) {
        return Rest {
            sound: true,
            known: noted(e),
        };
    }
    Rest {
        sound: unbounded_machine::walk(e, blocks).sound,
        known: unknown(),
    }
}
