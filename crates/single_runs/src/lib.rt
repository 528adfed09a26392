// A schedule, entry by entry, on any machine: the one loop that all entries go through.
#![tactic(auto)]

ghost use Rattle.std.specs.Prelude.{◌≡◌, ◌%◌, false, length};
ghost use Rattle.single_machine.specs.Broken.{broken_of};
ghost use Rattle.single_machine.specs.Machine.{machine_of};
ghost use Rattle.single_machine.specs.Run.{ran, run_from, run_of};

use queue_entries::{Entry, Verdict};
use single_machine::{Machine, Ran};
use single_places::{Single, Worker};

fn ran(
    refusal: u64,
    place: usize,
    single: Single,
    workers: [Worker; queue_entries::WORKERS],
    count: u64,
    meter: u64,
) -> Ran
    ensures { result ≡ ran refusal place (machine_of single workers count meter) }
{
    Ran {
        refusal,
        place: place as u64,
        machine: Machine {
            single,
            workers,
            count,
            meter,
        },
    }
}

// An even number of words, entry by entry, to its end or to the first refusal, which may be 9.
fn entries(m: Machine, schedule: &[u64]) -> Ran
    requires unbroken { broken_of m ≡ false }
    requires whole { length schedule.now % 2 ≡ 0 }
    ensures { result ≡ run_from m 0 schedule.now }
{
    let mut single = m.single;
    let mut workers = m.workers;
    let count = m.count;
    let mut meter = m.meter;
    let n = schedule.len() / 2;
    for i in 0..n {
        let Entry::Asks(worker, order) = queue_entries::entry_of(
            schedule[2 * i],
            schedule[2 * i + 1],
        ) else {
            return ran(9, i, single, workers, count, meter);
        };
        if count <= worker {
            return ran(3, i, single, workers, count, meter);
        }
        let w = worker as usize;
        let p = workers[w].place;
        match single_machine::verdict_of(meter, p, order) {
            Verdict::Refuse(number) => {
                return ran(number, i, single, workers, count, meter);
            }
            Verdict::Start(call) => {
                workers[w] = Worker {
                    place: single_places::first_place(call),
                };
            }
            Verdict::Move(_) => {
                let a = single_table::act_at(single, p);
                single = a.single;
                workers[w] = Worker { place: a.place };
                meter += 1;
            }
        }
    }
    ran(0, n, single, workers, count, meter)
}

fn unchanged(refusal: u64, place: usize, m: Machine) -> Ran
    ensures { result ≡ ran refusal place m }
{
    Ran {
        refusal,
        place: place as u64,
        machine: m,
    }
}

// As in `bounded_runs::run`, the search for refusal 9 is made only where an entry was refused.
pub fn run(m: Machine, schedule: &[u64]) -> Ran
    ensures { result ≡ run_of m schedule.now }
{
    if single_machine::broken(m) {
        return unchanged(6, 0, m);
    }
    if schedule.len() % 2 == 1 {
        return unchanged(11, 0, m);
    }
    let done = entries(m, schedule);
    if done.refusal == 0 {
        return done;
    }
    match queue_entries::search(schedule) {
        Some(place) => unchanged(9, place, m),
        None => done,
    }
}
