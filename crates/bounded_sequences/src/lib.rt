// The walk of item 10 over the ring: state walker and worker chooser. The slots are lent as two rows of numbers, so that no act copies
// them: it changes one, and sets it back on the way out. The last act of a sequence is not done, since nothing is asked of what it leaves.
#![tactic(auto)]

ghost use Rattle.std.specs.Prelude.{◌≡◌, true, false, ◌+◌, ◌<◌, ◌≤◌, length, set, take};
ghost use Rattle.std.proofs.lemmas.List.Edits.{sets};
ghost use Rattle.queue_walks.specs.Walks.{walkers_most, depth_most, act_byte, after};
ghost use Rattle.queue_walks.specs.Listed.{bytes_of, counted, Room};
ghost use Rattle.bounded_words.specs.Limits.{slots_most};
ghost use Rattle.bounded_words.specs.Words.{Fair};
ghost use Rattle.bounded_machine.specs.Machine.{record_of_worker};
ghost use Rattle.bounded_machine.specs.Broken.{all_idle};
ghost use Rattle.bounded_sequences.specs.Sequences.{code_of, may_act, spot_in, after_of, ends_here, last_act, last_from, ends_soon, soon_from, walk_from, choice_from, Ready, Sound};

use bounded_places::{Ends, Slot, Worker};
use bounded_words::{Fixed, Stamp, Width};
use queue_walks::Walked;

// As many records as a walk has workers at most (`queue_walks::WALKERS`): an act copies them.
pub const RECORDS: usize = 3;

// A machine but for its slots and the records past these, of which none is ever busy.
#[derive(Clone, Copy)]
pub struct State {
    pub fixed: Fixed,
    pub ends: Ends,
    pub workers: [Worker; RECORDS],
    pub count: u64,
    pub meter: u64,
}

// What an act leaves.
#[derive(Clone, Copy)]
pub struct After {
    pub state: State,
    pub stamp: u64,
    pub value: u64,
}

fn may_act(worker: Worker, lose: bool) -> bool
    ensures { result ≡ may_act worker lose }
{
    let view = bounded_places::view_of(worker.place);
    view.busy && (!lose || view.weak)
}

fn spot_of(f: Fixed, worker: Worker) -> usize
    requires { Fair f }
    ensures { result ≡ spot_in f worker }
{
    bounded_machine::spot(f, bounded_places::view_of(worker.place).held) as usize
}

fn act_on(s: State, worker: Worker, stamp: u64, value: u64, w: usize, lose: bool) -> After
    requires { Ready s worker w }
    ensures { result ≡ after_of s stamp value w lose }
{
    let mut workers = s.workers;
    let slot = Slot {
        stamp: Stamp(stamp),
        value,
    };
    let a = bounded_table::act_at(Width::SixtyFour, s.fixed, s.ends, slot, worker.place, lose);
    workers[w] = bounded_machine::record_after(worker, a.place, a.loss);
    After {
        state: State {
            fixed: s.fixed,
            ends: a.ends,
            workers,
            count: s.count,
            meter: s.meter + 1,
        },
        stamp: a.slot.stamp.0,
        value: a.slot.value,
    }
}

fn put_slot(stamps: &mut [u64], values: &mut [u64], k: usize, stamp: u64, value: u64)
    requires { (k < length stamps.old) × (k < length values.old) }
    ensures stamps { stamps.new ≡ set stamps.old k stamp }
    ensures values { values.new ≡ set values.old k value }
{
    stamps[k] = stamp;
    values[k] = value;
}

fn act_byte(w: usize, lose: bool) -> u8
    requires { w < walkers_most }
    ensures { result ≡ act_byte (code_of lose) w }
{
    if lose {
        (144 + w) as u8
    } else {
        (128 + w) as u8
    }
}

fn none_busy(workers: [Worker; RECORDS]) -> bool
    ensures { result ≡ all_idle workers }
{
    !may_act(workers[0], false) && !may_act(workers[1], false) && !may_act(workers[2], false)
}

fn ends_here(s: State, left: usize) -> bool
    ensures { result ≡ ends_here s left }
{
    let workers = s.workers;
    left == 0 || none_busy(workers)
}

fn ends_soon(s: State, left: usize) -> bool
    ensures { result ≡ ends_soon s left }
{
    let workers = s.workers;
    left < 2 || none_busy(workers)
}

// A sequence more, for a worker's last act; nothing where the act is refused.
fn last_act(
    out: &mut [u8],
    told: Walked,
    path: [u8; queue_walks::DEPTH],
    n: usize,
    worker: Worker,
    w: usize,
    lose: bool,
) -> Walked
    requires few { (w < walkers_most) × (n < depth_most) }
    requires room { Room told (after (take n path) (last_act worker w lose)) }
    ensures answer { result ≡ counted told (after (take n path) (last_act worker w lose)) }
    ensures lent { out.new ≡ sets out.old told.bytes (bytes_of (after (take n path) (last_act worker w lose))) }
{
    if !may_act(worker, lose) {
        return told;
    }
    let mut acts = path;
    acts[n] = act_byte(w, lose);
    queue_walks::list(out, told, acts, n + 1)
}

// Every sequence that one act ends, lowest worker first, code 8 before code 9.
fn last_acts(
    out: &mut [u8],
    told: Walked,
    path: [u8; queue_walks::DEPTH],
    n: usize,
    s: State,
) -> Walked
    requires few { (s.count ≤ walkers_most) × (n < depth_most) }
    requires room { Room told (last_from s path n) }
    ensures answer { result ≡ counted told (last_from s path n) }
    ensures lent { out.new ≡ sets out.old told.bytes (bytes_of (last_from s path n)) }
{
    let workers = s.workers;
    let count = s.count as usize;
    let mut r = told;
    for w in 0..count {
        r = last_act(out, r, path, n, workers[w], w, false);
        r = last_act(out, r, path, n, workers[w], w, true);
    }
    r
}

fn soon_told(
    out: &mut [u8],
    told: Walked,
    path: [u8; queue_walks::DEPTH],
    n: usize,
    s: State,
    left: usize,
) -> Walked
    requires sound { Sound s n left }
    requires room { Room told (soon_from s path n left) }
    ensures answer { result ≡ counted told (soon_from s path n left) }
    ensures lent { out.new ≡ sets out.old told.bytes (bytes_of (soon_from s path n left)) }
{
    if ends_here(s, left) {
        return queue_walks::list(out, told, path, n);
    }
    last_acts(out, told, path, n, s)
}

// From a state to each busy worker in turn, lowest first, code 8 before code 9.
#[cycle(choose_walk_state)]
pub fn walk_state(
    s: State,
    stamps: &mut [u64],
    values: &mut [u64],
    left: usize,
    path: [u8; queue_walks::DEPTH],
    n: usize,
    out: &mut [u8],
    told: Walked,
) -> Walked
    requires sound { Sound s n left }
    requires slots { (length stamps.old ≡ slots_most) × (length values.old ≡ slots_most) }
    requires room { Room told (walk_from s stamps.old values.old path n left) }
    ensures answer { result ≡ counted told (walk_from s stamps.old values.old path n left) }
    ensures lent { out.new ≡ sets out.old told.bytes (bytes_of (walk_from s stamps.old values.old path n left)) }
    ensures same { (stamps.new ≡ stamps.old) × (values.new ≡ values.old) }
{
    if ends_soon(s, left) {
        return soon_told(out, told, path, n, s, left);
    }
    let count = s.count as usize;
    let workers = s.workers;
    let mut r = told;
    for w in 0..count {
        let worker = workers[w];
        r = choose(
            s,
            stamps,
            values,
            left - 1,
            path,
            n,
            out,
            r,
            worker,
            w,
            false,
        );
        r = choose(
            s,
            stamps,
            values,
            left - 1,
            path,
            n,
            out,
            r,
            worker,
            w,
            true,
        );
    }
    r
}

// From a worker's act back to a state, with so many acts left after it; nothing where the act is refused.
#[cycle(choose_walk_state)]
fn choose(
    s: State,
    stamps: &mut [u64],
    values: &mut [u64],
    left: usize,
    path: [u8; queue_walks::DEPTH],
    n: usize,
    out: &mut [u8],
    told: Walked,
    worker: Worker,
    w: usize,
    lose: bool,
) -> Walked
    requires few { (w < s.count) × (worker ≡ record_of_worker s.workers w) }
    requires sound { Sound s n (left + 1) }
    requires slots { (length stamps.old ≡ slots_most) × (length values.old ≡ slots_most) }
    requires room { Room told (choice_from s stamps.old values.old path n left w lose) }
    ensures answer { result ≡ counted told (choice_from s stamps.old values.old path n left w lose) }
    ensures lent { out.new ≡ sets out.old told.bytes (bytes_of (choice_from s stamps.old values.old path n left w lose)) }
    ensures same { (stamps.new ≡ stamps.old) × (values.new ≡ values.old) }
{
    if !may_act(worker, lose) {
        return told;
    }
    let k = spot_of(s.fixed, worker);
    let stamp = stamps[k];
    let value = values[k];
    let a = act_on(s, worker, stamp, value, w, lose);
    let mut acts = path;
    acts[n] = act_byte(w, lose);
    put_slot(stamps, values, k, a.stamp, a.value);
    let r = walk_state(a.state, stamps, values, left, acts, n + 1, out, told);
    put_slot(stamps, values, k, stamp, value);
    r
}
