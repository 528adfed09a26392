// A schedule, entry by entry, on any machine: the one loop that all entries go through.
#![tactic(auto)]

ghost use Rattle.std.specs.Prelude.{◌≡◌, ◌%◌, false, length};
ghost use Rattle.queue_entries.specs.Entries.{entry_of};
ghost use Rattle.queue_entries.specs.Schedules.{search_by};
ghost use Rattle.bounded_acts.specs.Acts.{act_of};
ghost use Rattle.bounded_machine.specs.Broken.{broken_of};
ghost use Rattle.bounded_machine.specs.Machine.{machine_of};
ghost use Rattle.bounded_machine.specs.Run.{ran, run_at, run_of_by};
ghost use Rattle.bounded_runs.specs.Searched.{unless_unread};

use bounded_machine::{Machine, Ran, Ring};
use bounded_places::{Ends, Slot, Worker};
use bounded_words::{Fixed, Width};
use queue_entries::{Entry, Verdict};

fn ran(
    refusal: u64,
    place: usize,
    f: Fixed,
    e: Ends,
    slots: [Slot; bounded_words::SLOTS],
    workers: [Worker; queue_entries::WORKERS],
    count: u64,
    meter: u64,
) -> Ran
    ensures { result ≡ ran refusal place (machine_of f e slots workers count meter) }
{
    Ran {
        refusal,
        place: place as u64,
        machine: Machine {
            ring: Ring {
                head: e.head,
                tail: e.tail,
                mark: f.mark,
                lap: f.lap,
                capacity: f.capacity,
                edition: f.edition,
                slots,
            },
            workers,
            count,
            meter,
        },
    }
}

// An even number of words, entry by entry, to its end or to the first refusal, which may be 9.
fn entries(bits: Width, m: Machine, schedule: &[u64]) -> Ran
    requires m_value { broken_of m ≡ false }
    requires schedule_len { length schedule.now % 2 ≡ 0 }
    ensures { result ≡ run_at bits m 0 schedule.now }
{
    let f = m.ring.fixed();
    let mut ends = m.ring.ends();
    let mut slots = m.ring.slots;
    let mut workers = m.workers;
    let count = m.count;
    let mut meter = m.meter;
    let n = schedule.len() / 2;
    for i in 0..n {
        let Entry::Asks(worker, order) = queue_entries::entry_of(
            schedule[2 * i],
            schedule[2 * i + 1],
        ) else {
            return ran(9, i, f, ends, slots, workers, count, meter);
        };
        if count <= worker {
            return ran(3, i, f, ends, slots, workers, count, meter);
        }
        let w = worker as usize;
        let record = workers[w];
        let p = record.place;
        match bounded_machine::verdict_of(meter, p, order) {
            Verdict::Refuse(number) => {
                return ran(number, i, f, ends, slots, workers, count, meter);
            }
            Verdict::Start(call) => {
                workers[w] = Worker {
                    place: bounded_places::first_place(call),
                    differed: 0,
                    failed: 0,
                };
            }
            Verdict::Move(lose) => {
                let k = bounded_machine::spot(f, bounded_places::view_of(p).held) as usize;
                let a = bounded_table::act_at(bits, f, ends, slots[k], p, lose);
                ends = a.ends;
                slots[k] = a.slot;
                workers[w] = bounded_machine::record_after(record, a.place, a.loss);
                meter += 1;
            }
        }
    }
    ran(0, n, f, ends, slots, workers, count, meter)
}

fn unchanged(refusal: u64, place: usize, m: Machine) -> Ran
    ensures { result ≡ ran refusal place m }
{
    Ran {
        refusal,
        place: place as u64,
        machine: m,
    }
}

// "If found, nothing is run and the first such place is reported": the machine as it was handed in, in place of what its entries gave.
fn unless_unread(m: Machine, done: Ran, schedule: &[u64]) -> Ran
    ensures { result ≡ unless_unread m done (search_by entry_of 0 schedule.now) }
{
    let n = schedule.len() / 2;
    for i in 0..n {
        let Entry::Asks(_, _) = queue_entries::entry_of(schedule[2 * i], schedule[2 * i + 1]) else {
            return unchanged(9, i, m);
        };
    }
    done
}

// Refusal 9 comes before the first entry is run. A run that was not refused has read every entry, so that it is looked for only where one was
// refused, with the machine still at hand as it was.
pub fn run(bits: Width, m: Machine, schedule: &[u64]) -> Ran
    ensures { result ≡ run_of_by (act_of bits) m schedule.now }
{
    if bounded_machine::broken(m) {
        return unchanged(6, 0, m);
    }
    if schedule.len() % 2 == 1 {
        return unchanged(11, 0, m);
    }
    let done = entries(bits, m, schedule);
    if done.refusal == 0 {
        return done;
    }
    unless_unread(m, done, schedule)
}
