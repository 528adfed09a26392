// The public face of the one-slot queue: what a user calls. Each function takes anything and answers, or refuses with document 01's number.
#![tactic(auto)]

ghost use Rattle.std.specs.Prelude.{◌≡◌, length};
ghost use Rattle.queue_entries.specs.Told.{told};
ghost use Rattle.single_machine.specs.Broken.{broken_of};
ghost use Rattle.single_machine.specs.Contents.{count_in, contents_refusal, written, capacity_of};
ghost use Rattle.single_machine.specs.Run.{run_of};
ghost use Rattle.single.specs.Single.{make_of, step_of, begin_step_of, act_step_of};

use single_machine::{Did, Machine, Ran};

// A fresh machine, or refusal 2 with the blank one.
pub fn make(workers: u64) -> Did
    ensures { result ≡ make_of workers }
{
    if queue_entries::in_limits(workers, queue_entries::WORKERS as u64) {
        single_machine::accept(single_machine::fresh(workers))
    } else {
        single_machine::refuse(single_machine::fresh(0), 2)
    }
}

pub fn broken(m: Machine) -> bool
    ensures { result ≡ broken_of m }
{
    single_machine::broken(m)
}

pub fn capacity(m: Machine) -> Result<u64, u64>
    ensures { result ≡ capacity_of m }
{
    if single_machine::broken(m) {
        Err(6)
    } else {
        Ok(1)
    }
}

// The item as `Drop` would meet it, if there is one, written at the buffer's start. Nothing is removed.
pub fn contents(m: Machine, buffer: &mut [u64]) -> Result<u64, u64>
    ensures answer { result ≡ told (contents_refusal m (length buffer.old)) (count_in m) }
    ensures lent { buffer.new ≡ written m buffer.old }
{
    if single_machine::broken(m) {
        return Err(6);
    }
    if !single_machine::idle_from(0, m.workers) {
        return Err(4);
    }
    if !single_words::pushed(m.single.state) {
        return Ok(0);
    }
    if buffer.len() < 1 {
        return Err(10);
    }
    buffer[0] = m.single.value;
    Ok(1)
}

// A schedule, entry by entry, to its end or to the first refusal.
pub fn run(m: Machine, schedule: &[u64]) -> Ran
    ensures { result ≡ run_of m schedule.now }
{
    single_runs::run(m, schedule)
}

// One entry of a schedule, by its two words.
pub fn step(m: Machine, first: u64, second: u64) -> Did
    ensures { result ≡ step_of m first second }
{
    let r = run(m, &[first, second]);
    Did {
        refusal: r.refusal,
        machine: r.machine,
    }
}

// One entry that begins a call; another's code can't be read here: refusal 9.
pub fn begin(m: Machine, first: u64, second: u64) -> Did
    ensures { result ≡ begin_step_of m first second }
{
    if single_machine::broken(m) {
        return single_machine::refuse(m, 6);
    }
    if first % 16 < 8 {
        step(m, first, second)
    } else {
        single_machine::refuse(m, 9)
    }
}

// One entry that acts; another's code can't be read here: refusal 9.
pub fn act(m: Machine, first: u64, second: u64) -> Did
    ensures { result ≡ act_step_of m first second }
{
    if single_machine::broken(m) {
        return single_machine::refuse(m, 6);
    }
    if first % 16 < 8 {
        single_machine::refuse(m, 9)
    } else {
        step(m, first, second)
    }
}
