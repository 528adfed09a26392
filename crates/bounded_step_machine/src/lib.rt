// One entry at a time, of either width: each is the loop of bounded_runs on a schedule of one entry.
#![tactic(auto)]

ghost use Rattle.std.specs.Prelude.{◌≡◌};
ghost use Rattle.bounded_acts.specs.Acts.{act_of};
ghost use Rattle.bounded_step_machine.specs.Steps.{step_of_by, begin_step_of_by, act_step_of_by};

use bounded_machine::{Did, Machine};
use bounded_words::Width;

// One entry of a schedule, by its two words.
pub fn step(bits: Width, m: Machine, first: u64, second: u64) -> Did
    ensures { result ≡ step_of_by (act_of bits) m first second }
{
    let entry = [first, second];
    let r = bounded_runs::run(bits, m, &entry);
    Did {
        refusal: r.refusal,
        machine: r.machine,
    }
}

// One entry that begins a call; another's code can't be read here: refusal 9.
pub fn begin(bits: Width, m: Machine, first: u64, second: u64) -> Did
    ensures { result ≡ begin_step_of_by (act_of bits) m first second }
{
    if bounded_machine::broken(m) {
        return bounded_machine::refuse(m, 6);
    }
    if first % 16 < 8 {
        step(bits, m, first, second)
    } else {
        bounded_machine::refuse(m, 9)
    }
}

// One entry that acts; another's code can't be read here: refusal 9.
pub fn act(bits: Width, m: Machine, first: u64, second: u64) -> Did
    ensures { result ≡ act_step_of_by (act_of bits) m first second }
{
    if bounded_machine::broken(m) {
        return bounded_machine::refuse(m, 6);
    }
    if first % 16 < 8 {
        bounded_machine::refuse(m, 9)
    } else {
        step(bits, m, first, second)
    }
}
