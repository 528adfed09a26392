// The public face: what a user calls. Each function takes anything and answers, or refuses with its number.
#![tactic(auto)]

ghost use Rattle.std.specs.Prelude.{◌≡◌, length};
ghost use Rattle.queue_entries.specs.Told.{told};
ghost use Rattle.unbounded_words.specs.Words.{sizes};
ghost use Rattle.unbounded_machine.specs.Broken.{broken_of};
ghost use Rattle.unbounded_machine.specs.Contents.{count_in, contents_refusal, written};
ghost use Rattle.unbounded_machine.specs.Run.{run_of};
ghost use Rattle.unbounded.specs.Unbounded.{make_of, step_of, begin_step_of, act_step_of, capacity_of};

use unbounded_machine::{Did, Machine, Ran};
use unbounded_places::Block;

// A fresh machine, or refusal 2 with the blank one.
pub fn make(workers: u64) -> Did
    ensures { result ≡ make_of sizes workers }
{
    if queue_entries::in_limits(workers, queue_entries::WORKERS as u64) {
        unbounded_machine::accept(unbounded_machine::fresh(workers))
    } else {
        unbounded_machine::refuse(unbounded_machine::blank(), 2)
    }
}

pub fn broken(m: Machine) -> bool
    ensures { result ≡ broken_of sizes m }
{
    unbounded_machine::broken_in(m.ends, m.blocks, m.workers, m.count)
}

// The queue has no capacity: there is nothing to tell but a refusal.
pub fn capacity(m: Machine) -> Result<(), u64>
    ensures { result ≡ capacity_of sizes m }
{
    if broken(m) { Err(6) } else { Ok(()) }
}

// The items as `Drop` would meet them, written at the buffer's start. Nothing is removed.
pub fn contents(m: Machine, buffer: &mut [u64]) -> Result<u64, u64>
    ensures answer { result ≡ told (contents_refusal sizes m (length buffer.old)) (count_in sizes m) }
    ensures lent { buffer.new ≡ written sizes m buffer.old }
{
    if broken(m) {
        return Err(6);
    }
    if !unbounded_machine::all_idle(m.workers) {
        return Err(4);
    }
    let e = m.ends;
    let mut blocks = m.blocks;
    let slots = m.slots;
    let walked = unbounded_machine::walk(e, blocks);
    let n = walked.count;
    if buffer.len() < (n as usize) {
        return Err(10);
    }
    let mut b = e.front;
    let mut h = unbounded_words::unmarked(e.head);
    let t = unbounded_words::unmarked(e.tail);
    let mut met: usize = 0;
    for _ in 0..unbounded_machine::STEPS {
        if h == t {
            return Ok(n);
        }
        let k = unbounded_words::number(b);
        if unbounded_words::past_slots(h) {
            let g = blocks[k as usize];
            blocks[k as usize] = Block { free: true, ..g };
            b = g.next;
        } else {
            let s = slots[(k * unbounded_words::SLOTS + unbounded_words::offset(h)) as usize];
            buffer[met] = s.value;
            met += 1;
        }
        h = unbounded_words::next(h);
    }
    Ok(n)
}

// A schedule, entry by entry, to its end or to the first refusal.
pub fn run(m: Machine, schedule: &[u64]) -> Ran
    ensures { result ≡ run_of sizes m schedule.now }
{
    unbounded_runs::run(m, schedule)
}

// One entry of a schedule, by its two words.
pub fn step(m: Machine, first: u64, second: u64) -> Did
    ensures { result ≡ step_of sizes m first second }
{
    let r = run(m, &[first, second]);
    Did {
        refusal: r.refusal,
        machine: r.machine,
    }
}

// One entry that begins a call; another's code can't be read here: refusal 9.
pub fn begin(m: Machine, first: u64, second: u64) -> Did
    ensures { result ≡ begin_step_of sizes m first second }
{
    if broken(m) {
        return unbounded_machine::refuse(m, 6);
    }
    if first % 16 < 8 {
        step(m, first, second)
    } else {
        unbounded_machine::refuse(m, 9)
    }
}

// One entry that acts; another's code can't be read here: refusal 9.
pub fn act(m: Machine, first: u64, second: u64) -> Did
    ensures { result ≡ act_step_of sizes m first second }
{
    if broken(m) {
        return unbounded_machine::refuse(m, 6);
    }
    if first % 16 < 8 {
        unbounded_machine::refuse(m, 9)
    } else {
        step(m, first, second)
    }
}
