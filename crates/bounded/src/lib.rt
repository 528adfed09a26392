// The public face, of 64 bits: what a user calls. Each function takes anything and answers, or refuses with document 01's number.
#![tactic(auto)]

ghost use Rattle.std.specs.Prelude.{◌≡◌, length};
ghost use Rattle.bounded_machine.specs.Broken.{broken_of};
ghost use Rattle.queue_entries.specs.Told.{told};
ghost use Rattle.bounded_machine.specs.Contents.{count_in, contents_refusal, written, capacity_of};
ghost use Rattle.bounded_machine.specs.Run.{run_of};
ghost use Rattle.bounded.specs.Bounded.{make_of, step_of, begin_step_of, act_step_of};

use bounded_machine::{Did, Machine, Ran};
use bounded_words::Width;

// A fresh machine, or refusal 1, 2 or 18 with the blank one.
pub fn make(capacity: u64, workers: u64, edition: u64) -> Did
    ensures { result ≡ make_of capacity workers edition }
{
    let number = bounded_orders::make_refusal(
        queue_entries::WORKERS as u64,
        capacity,
        workers,
        edition,
    );
    if number == 0 {
        bounded_machine::accept(bounded_machine::fresh(capacity, workers, edition))
    } else {
        bounded_machine::refuse(bounded_machine::blank(), number)
    }
}

pub fn broken(m: Machine) -> bool
    ensures { result ≡ broken_of m }
{
    bounded_machine::broken(m)
}

pub fn capacity(m: Machine) -> Result<u64, u64>
    ensures { result ≡ capacity_of m }
{
    bounded_orders::capacity_told(bounded_machine::broken(m), m.ring.capacity)
}

// The items as `Drop` would meet them, written at the buffer's start. Nothing is removed.
pub fn contents(m: Machine, buffer: &mut [u64]) -> Result<u64, u64>
    ensures answer { result ≡ told (contents_refusal m (length buffer.old)) (count_in m) }
    ensures lent { buffer.new ≡ written m buffer.old }
{
    let idle = bounded_machine::all_idle(m.workers);
    bounded_orders::contents_by(bounded_machine::broken(m), idle, m.ring, buffer)
}

// A schedule, entry by entry, to its end or to the first refusal.
pub fn run(m: Machine, schedule: &[u64]) -> Ran
    ensures { result ≡ run_of m schedule.now }
{
    bounded_runs::run(Width::SixtyFour, m, schedule)
}

// One entry of a schedule, by its two words.
pub fn step(m: Machine, first: u64, second: u64) -> Did
    ensures { result ≡ step_of m first second }
{
    bounded_step_machine::step(Width::SixtyFour, m, first, second)
}

// One entry that begins a call; another's code can't be read here: refusal 9.
pub fn begin(m: Machine, first: u64, second: u64) -> Did
    ensures { result ≡ begin_step_of m first second }
{
    bounded_step_machine::begin(Width::SixtyFour, m, first, second)
}

// One entry that acts; another's code can't be read here: refusal 9.
pub fn act(m: Machine, first: u64, second: u64) -> Did
    ensures { result ≡ act_step_of m first second }
{
    bounded_step_machine::act(Width::SixtyFour, m, first, second)
}
