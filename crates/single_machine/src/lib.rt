// The machine: the one-slot queue, its workers' records and the meter; and what each rule asks of it.
#![tactic(auto)]

ghost use Rattle.std.specs.Prelude.{◌≡◌};
ghost use Rattle.single_machine.specs.Machine.{fresh_of, refused, accepted};
ghost use Rattle.single_machine.specs.Broken.{record_fits, idle_from, broken_of};
ghost use Rattle.single_machine.specs.Turn.{verdict_of};

use queue_entries::{Order, Verdict};
use single_places::{Answer, Place, Single, Worker};
use single_words::State;

#[derive(Clone, Copy)]
pub struct Machine {
    pub single: Single,
    pub workers: [Worker; queue_entries::WORKERS],
    // how many of the records are in use
    pub count: u64,
    // accepted acts since the machine was made
    pub meter: u64,
}

// A machine, and the number of the refusal; 0 where it was not refused.
#[derive(Clone, Copy)]
pub struct Did {
    pub refusal: u64,
    pub machine: Machine,
}

// What a schedule reports: the refusal and the entry's place, or 0 and the count of its entries.
#[derive(Clone, Copy)]
pub struct Ran {
    pub refusal: u64,
    pub place: u64,
    pub machine: Machine,
}

// One act of a run.
#[derive(Clone, Copy)]
pub struct Event {
    pub worker: u64,
    pub before: Place,
    pub after: Place,
}

pub fn refuse(m: Machine, number: u64) -> Did
    ensures { result ≡ refused number m }
{
    Did {
        refusal: number,
        machine: m,
    }
}

pub fn accept(m: Machine) -> Did
    ensures { result ≡ accepted m }
{
    Did {
        refusal: 0,
        machine: m,
    }
}

// All numbers 0 but the count of workers, who are idle.
pub fn fresh(workers: u64) -> Machine
    ensures { result ≡ fresh_of workers }
{
    Machine {
        single: Single {
            state: State(0),
            value: 0,
        },
        workers: [Worker {
            place: Place::Idle(Answer::Nothing),
        }; queue_entries::WORKERS],
        count: workers,
        meter: 0,
    }
}

// A record that is idle, or among those that may be busy.
fn record_fits(p: Place, among: bool) -> bool
    ensures { result ≡ record_fits p among }
{
    !single_places::view_of(p).busy || among
}

// No record from this number on is busy.
pub fn idle_from(n: u64, workers: [Worker; queue_entries::WORKERS]) -> bool
    ensures { result ≡ idle_from n workers }
{
    for (i, worker) in workers.iter().enumerate() {
        if !record_fits(worker.place, (i as u64) < n) {
            return false;
        }
    }
    true
}

// "a state word above 7, a worker count out of limits or a busy record past it"
pub fn broken(m: Machine) -> bool
    ensures { result ≡ broken_of m }
{
    if single_words::STATES < m.single.state.0 {
        return true;
    }
    if !queue_entries::in_limits(m.count, queue_entries::WORKERS as u64) {
        return true;
    }
    !idle_from(m.count, m.workers)
}

// What becomes of a worker that stands at p. No exchange is weak.
pub fn verdict_of(meter: u64, p: Place, o: Order) -> Verdict
    ensures { result ≡ verdict_of meter p o }
{
    queue_entries::verdict_for(meter, single_places::view_of(p).busy, false, o)
}
