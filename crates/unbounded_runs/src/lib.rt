// A schedule on any machine: 6, 11 and 9 of the whole, then the one loop that all entries go through.
#![tactic(auto)]

ghost use Rattle.std.specs.Prelude.{◌≡◌, false};
ghost use Rattle.unbounded_words.specs.Words.{sizes};
ghost use Rattle.unbounded_machine.specs.Broken.{broken_in};
ghost use Rattle.unbounded_machine.specs.Machine.{machine_of};
ghost use Rattle.unbounded_machine.specs.Run.{ran, run_from, run_of};

use unbounded_machine::{Machine, Ran};
use unbounded_places::{Block, Ends, Slot, Worker};

fn ran(
    refusal: u64,
    place: usize,
    e: Ends,
    blocks: [Block; unbounded_words::BLOCKS],
    slots: [Slot; unbounded_words::POOL],
    workers: [Worker; queue_entries::WORKERS],
    count: u64,
    meter: u64,
) -> Ran
    ensures { result ≡ ran refusal place (machine_of e blocks slots workers count meter) }
{
    Ran {
        refusal,
        place: place as u64,
        machine: Machine {
            ends: e,
            blocks,
            slots,
            workers,
            count,
            meter,
        },
    }
}

// Entry by entry, to the last or to the first refusal. Whether the machine is sound is judged after each by what it can have changed: its worker's record;
// with its block's header changed all records; with nobody busy `Drop`'s walk, where it is not known.
fn run_from(
    mut ends: Ends,
    mut blocks: [Block; unbounded_words::BLOCKS],
    mut slots: [Slot; unbounded_words::POOL],
    mut workers: [Worker; queue_entries::WORKERS],
    count: u64,
    mut meter: u64,
    schedule: &[u64],
) -> Ran
    requires { broken_in sizes ends blocks workers count ≡ false }
    ensures { result ≡ run_from sizes (machine_of ends blocks slots workers count meter) 0 schedule.now }
{
    let mut busy = unbounded_judged::busy_in(workers);
    let mut known = unbounded_judged::unknown();
    let mut sound = true;
    let n = schedule.len() / 2;
    for i in 0..n {
        let ask = unbounded_entries::ask_of(sound, count, schedule[2 * i], schedule[2 * i + 1]);
        let asker = ask.worker;
        let standing = workers[asker as usize];
        let way = unbounded_entries::way_of(ask, standing, meter);
        let mut lowest = way.block;
        if way.takes {
            lowest = unbounded_machine::lowest_free(blocks);
        }
        let aim = unbounded_entries::aim_of(way, lowest);
        let refusal = aim.refusal;
        if 0 < refusal {
            return ran(refusal, i, ends, blocks, slots, workers, count, meter);
        }
        let k = aim.block;
        if aim.takes {
            for c in 0..unbounded_words::SLOTS {
                slots[(k * unbounded_words::SLOTS + c) as usize] = Slot { state: 0, value: 0 };
            }
        }
        let j = k * unbounded_words::SLOTS + aim.slot;
        let w = aim.worker;
        let order = aim.order;
        let g = blocks[k as usize];
        let s = slots[j as usize];
        let worker = workers[w as usize];
        let done = unbounded_entries::done_at(ends, k, g, s, worker, order);
        let block_after = done.block;
        let worker_after = done.worker;
        ends = done.ends;
        blocks[k as usize] = block_after;
        slots[j as usize] = done.slot;
        workers[w as usize] = worker_after;
        let look = unbounded_entries::look_at(worker_after);
        let spot = look.block;
        let x = blocks[spot as usize];
        sound = unbounded_entries::fits_at(look, x);
        if !unbounded_entries::same_header(g, block_after) {
            known = unbounded_judged::unknown();
            sound = unbounded_machine::records_fit(blocks, count, workers);
        }
        busy = unbounded_entries::tally(busy, order, look.busy);
        if unbounded_judged::due(busy, known, ends) {
            let rest = unbounded_judged::rest_of(ends, blocks);
            known = rest.known;
            sound = unbounded_judged::both(sound, rest.sound);
        }
        meter = aim.meter;
    }
    ran(0, n, ends, blocks, slots, workers, count, meter)
}

pub fn run(m: Machine, schedule: &[u64]) -> Ran
    ensures { result ≡ run_of sizes m schedule.now }
{
    let ends = m.ends;
    let blocks = m.blocks;
    let slots = m.slots;
    let workers = m.workers;
    let count = m.count;
    let meter = m.meter;
    if unbounded_machine::broken_in(ends, blocks, workers, count) {
        return ran(6, 0, ends, blocks, slots, workers, count, meter);
    }
    if schedule.len() % 2 == 1 {
        return ran(11, 0, ends, blocks, slots, workers, count, meter);
    }
    match queue_entries::search_but(unbounded_entries::FORCE_PUSH, schedule) {
        Some(place) => ran(9, place, ends, blocks, slots, workers, count, meter),
        None => run_from(ends, blocks, slots, workers, count, meter, schedule),
    }
}
