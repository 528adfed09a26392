// The machine as words in the host's memory: eight words, 64 for each block of the pool, five for each of its sixteen records (specs/Rows.antt has the layout).
#![tactic(auto)]

ghost use Rattle.std.specs.Prelude.{◌≡◌, ◌+◌, ◌*◌, ◌/◌, ◌<◌, length};
ghost use Rattle.unbounded_rows.specs.Rows.{words, bit, head_from, head_of, pool_of, records_of, ends_in, block_in, slot_in, record_in, blocks_in, slots_in, records_in, machine_in, shaped, laid_out_rows, bits, placed, placed_at, stand, with_blocks, with_slots, with_record};

use unbounded_machine::Machine;
use unbounded_places::{Answer, Block, Ends, Place, Slot, Worker};
use unbounded_words::{Index, Pointer};

// How many words there are but for blocks and records, of all blocks, of all records; of a block, of a record.
pub const HEAD: usize = 8;

pub const POOL: usize = 4096;

pub const RECORDS: usize = 80;

pub const BLOCK: usize = 64;

pub const RECORD: usize = 5;

// The number of this layout, in the last word of the head; the ring's is 1, the one-slot queue's 2.
pub const LAYOUT: u64 = 3;

pub fn shaped(head: &[u64], pool: &[u64], records: &[u64]) -> bool
    ensures { result ≡ shaped (words head.now pool.now records.now) }
{
    if head.len() != HEAD {
        return false;
    }
    pool.len() == POOL && records.len() == RECORDS
}

// ---- judged

fn laid_out(head: &[u64]) -> bool
    requires { length head.now ≡ 8 }
    ensures { result ≡ laid_out_rows head.now }
{
    head[6] == 0 && head[7] == LAYOUT
}

fn all_bits(pool: &[u64]) -> bool
    requires { length pool.now ≡ 4096 }
    ensures { result ≡ bits pool.now }
{
    for k in 0..unbounded_words::BLOCKS {
        if 2 <= pool[k * BLOCK + 1] {
            return false;
        }
    }
    true
}

fn placed_at(records: &[u64], i: usize) -> bool
    requires { i * 5 + 4 < length records.now }
    ensures { result ≡ placed_at records.now i }
{
    let at = i * RECORD;
    unbounded_codes::stands(
        records[at],
        records[at + 1],
        records[at + 2],
        records[at + 3],
        records[at + 4],
    )
}

fn all_placed(records: &[u64]) -> bool
    requires { length records.now ≡ 80 }
    ensures { result ≡ placed records.now }
{
    for i in 0..queue_entries::WORKERS {
        if !placed_at(records, i) {
            return false;
        }
    }
    true
}

// Whether the words stand for a machine.
pub fn stands(head: &[u64], pool: &[u64], records: &[u64]) -> bool
    ensures { result ≡ stand (words head.now pool.now records.now) }
{
    if !shaped(head, pool, records) {
        return false;
    }
    if !laid_out(head) {
        return false;
    }
    all_bits(pool) && all_placed(records)
}

// ---- read

pub fn ends_in(head: &[u64]) -> Ends
    requires { length head.now ≡ 8 }
    ensures { result ≡ ends_in head.now }
{
    Ends {
        head: Index(head[0]),
        front: unbounded_codes::pointer_in(head[1]),
        tail: Index(head[2]),
        back: unbounded_codes::pointer_in(head[3]),
    }
}

fn block_in(pool: &[u64], k: usize) -> Block
    requires { k * 64 + 1 < length pool.now }
    ensures { result ≡ block_in pool.now k }
{
    Block {
        next: unbounded_codes::pointer_in(pool[k * BLOCK]),
        free: pool[k * BLOCK + 1] == 1,
    }
}

fn record_in(records: &[u64], i: usize) -> Worker
    requires { i * 5 + 4 < length records.now }
    ensures { result ≡ record_in records.now i }
{
    let at = i * RECORD;
    Worker {
        place: unbounded_codes::place_in(
            records[at],
            records[at + 1],
            records[at + 2],
            records[at + 3],
            records[at + 4],
        ),
    }
}

pub fn blocks_in(pool: &[u64]) -> [Block; unbounded_words::BLOCKS]
    requires { length pool.now ≡ 4096 }
    ensures { result ≡ blocks_in pool.now }
{
    let mut all = [Block {
        next: Pointer::None,
        free: false,
    }; unbounded_words::BLOCKS];
    for k in 0..unbounded_words::BLOCKS {
        all[k] = block_in(pool, k);
    }
    all
}

fn slots_in(pool: &[u64]) -> [Slot; unbounded_words::POOL]
    requires { length pool.now ≡ 4096 }
    ensures { result ≡ slots_in pool.now }
{
    let mut all = [Slot { state: 0, value: 0 }; unbounded_words::POOL];
    for j in 0..unbounded_words::POOL {
        let at = j * 2 + j / 31 * 2 + 2;
        all[j] = Slot {
            state: pool[at],
            value: pool[at + 1],
        };
    }
    all
}

pub fn records_in(records: &[u64]) -> [Worker; queue_entries::WORKERS]
    requires { length records.now ≡ 80 }
    ensures { result ≡ records_in records.now }
{
    let mut all = [Worker {
        place: Place::Idle(Answer::Nothing),
    }; queue_entries::WORKERS];
    for i in 0..queue_entries::WORKERS {
        all[i] = record_in(records, i);
    }
    all
}

pub fn machine_in(head: &[u64], pool: &[u64], records: &[u64]) -> Machine
    requires head_len { length head.now ≡ 8 }
    requires pool_len { length pool.now ≡ 4096 }
    requires records_len { length records.now ≡ 80 }
    ensures { result ≡ machine_in (words head.now pool.now records.now) }
{
    let ends = ends_in(head);
    let blocks = blocks_in(pool);
    let slots = slots_in(pool);
    let workers = records_in(records);
    Machine {
        ends,
        blocks,
        slots,
        workers,
        count: head[4],
        meter: head[5],
    }
}

// ---- written

fn put_head(head: &mut [u64], e: Ends, count: u64, meter: u64)
    requires { length head.old ≡ 8 }
    ensures { head.new ≡ head_from e count meter }
{
    head[0] = e.head.0;
    head[1] = unbounded_words::number(e.front);
    head[2] = e.tail.0;
    head[3] = unbounded_words::number(e.back);
    head[4] = count;
    head[5] = meter;
    head[6] = 0;
    head[7] = LAYOUT;
}

fn bit(b: bool) -> u64
    ensures { result ≡ bit b }
{
    if b { 1 } else { 0 }
}

fn put_blocks(pool: &mut [u64], blocks: [Block; unbounded_words::BLOCKS])
    requires { length pool.old ≡ 4096 }
    ensures { pool.new ≡ with_blocks pool.old blocks }
{
    for k in 0..unbounded_words::BLOCKS {
        let g = blocks[k];
        pool[k * BLOCK] = unbounded_words::number(g.next);
        pool[k * BLOCK + 1] = bit(g.free);
    }
}

fn put_slots(pool: &mut [u64], slots: [Slot; unbounded_words::POOL])
    requires { length pool.old ≡ 4096 }
    ensures { pool.new ≡ with_slots pool.old slots }
{
    for j in 0..unbounded_words::POOL {
        let s = slots[j];
        let at = j * 2 + j / 31 * 2 + 2;
        pool[at] = s.state;
        pool[at + 1] = s.value;
    }
}

pub fn put_record(records: &mut [u64], i: usize, r: Worker)
    requires { i * 5 + 4 < length records.old }
    ensures { records.new ≡ with_record records.old i r }
{
    let x = unbounded_codes::code_of(r.place);
    let at = i * RECORD;
    records[at] = x.code;
    records[at + 1] = x.first;
    records[at + 2] = x.second;
    records[at + 3] = x.third;
    records[at + 4] = x.fourth;
}

fn put_records(records: &mut [u64], all: [Worker; queue_entries::WORKERS])
    requires { length records.old ≡ 80 }
    ensures { records.new ≡ records_of all }
{
    for (i, worker) in all.iter().enumerate() {
        put_record(records, i, *worker);
    }
}

pub fn put_machine(head: &mut [u64], pool: &mut [u64], records: &mut [u64], m: Machine)
    requires head_len { length head.old ≡ 8 }
    requires pool_len { length pool.old ≡ 4096 }
    requires records_len { length records.old ≡ 80 }
    ensures head_after { head.new ≡ head_of m }
    ensures pool_after { pool.new ≡ pool_of m.blocks m.slots }
    ensures records_after { records.new ≡ records_of m.workers }
{
    put_head(head, m.ends, m.count, m.meter);
    put_blocks(pool, m.blocks);
    put_slots(pool, m.slots);
    put_records(records, m.workers);
}
