// The public face of sixteen bits: what a user calls. Each function widens the machine, does what is asked at that width, and narrows what it leaves; the rules
// are the one machine's.
#![tactic(auto)]

ghost use Rattle.std.specs.Prelude.{◌≡◌, length};
ghost use Rattle.queue_entries.specs.Told.{told};
ghost use Rattle.bounded_machine.specs.Broken.{broken_of};
ghost use Rattle.bounded_machine.specs.Contents.{count_in, contents_refusal, written, capacity_of};
ghost use Rattle.bounded_sixteen_bits.specs.SixteenBits.{widened};
ghost use Rattle.bounded_narrow.specs.Narrow.{make_of, run_of, step_of, begin_step_of, act_step_of};

use bounded_sixteen_bits::{Did, Machine, Ran};
use bounded_words::Width;

// A fresh machine, or refusal 1, 2 or 18 with the blank one.
pub fn make(capacity: u64, workers: u64, edition: u64) -> Did
    ensures { result ≡ make_of capacity workers edition }
{
    bounded_sixteen_bits::narrow_did(bounded::make(capacity, workers, edition))
}

pub fn broken(m: Machine) -> bool
    ensures { result ≡ broken_of (widened m) }
{
    bounded::broken(bounded_sixteen_bits::widen(m))
}

pub fn capacity(m: Machine) -> Result<u64, u64>
    ensures { result ≡ capacity_of (widened m) }
{
    bounded::capacity(bounded_sixteen_bits::widen(m))
}

// The items as `Drop` would meet them, written at the buffer's start. Nothing is removed.
pub fn contents(m: Machine, buffer: &mut [u64]) -> Result<u64, u64>
    ensures answer { result ≡ told (contents_refusal (widened m) (length buffer.old)) (count_in (widened m)) }
    ensures lent { buffer.new ≡ written (widened m) buffer.old }
{
    bounded::contents(bounded_sixteen_bits::widen(m), buffer)
}

// A schedule, entry by entry, to its end or to the first refusal.
pub fn run(m: Machine, schedule: &[u64]) -> Ran
    ensures { result ≡ run_of m schedule.now }
{
    bounded_sixteen_bits::narrow_ran(bounded_runs::run(
        Width::Sixteen,
        bounded_sixteen_bits::widen(m),
        schedule,
    ))
}

// One entry of a schedule, by its two words.
pub fn step(m: Machine, first: u64, second: u64) -> Did
    ensures { result ≡ step_of m first second }
{
    bounded_sixteen_bits::narrow_did(bounded_step_machine::step(
        Width::Sixteen,
        bounded_sixteen_bits::widen(m),
        first,
        second,
    ))
}

// One entry that begins a call; another's code can't be read here: refusal 9.
pub fn begin(m: Machine, first: u64, second: u64) -> Did
    ensures { result ≡ begin_step_of m first second }
{
    bounded_sixteen_bits::narrow_did(bounded_step_machine::begin(
        Width::Sixteen,
        bounded_sixteen_bits::widen(m),
        first,
        second,
    ))
}

// One entry that acts; another's code can't be read here: refusal 9.
pub fn act(m: Machine, first: u64, second: u64) -> Did
    ensures { result ≡ act_step_of m first second }
{
    bounded_sixteen_bits::narrow_did(bounded_step_machine::act(
        Width::Sixteen,
        bounded_sixteen_bits::widen(m),
        first,
        second,
    ))
}
