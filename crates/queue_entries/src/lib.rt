// What every queue's schedules share: document 01, "Schedules", the order of an entry's refusals, and the limits on workers and meter.
#![tactic(auto)]

ghost use Rattle.std.specs.Prelude.{◌≡◌};
ghost use Rattle.queue_entries.specs.Limits.{in_limits};
ghost use Rattle.queue_entries.specs.Entries.{call_of, stray_of, entry_of, entry_but, verdict_for};
ghost use Rattle.queue_entries.specs.Schedules.{search_by};

// The most workers, and the meter's last number.
pub const WORKERS: usize = 16;

pub const METER: u64 = 4294967295;

#[tactic(auto, unfolding(crate::specs::Limits::in_limits))]
pub fn in_limits(n: u64, most: u64) -> bool
    ensures { result ≡ in_limits n most }
{
    n != 0 && n <= most
}

// The eight calls, with the item of the two that have one.
#[derive(Clone, Copy)]
pub enum Call {
    Push(u64),
    ForcePush(u64),
    Pop,
    Len,
    IsEmpty,
    IsFull,
    Close,
    IsClosed,
}

// What an entry asks of its worker: to begin a call, or to act; true: its weak exchange fails.
#[derive(Clone, Copy)]
pub enum Order {
    Begin(Call),
    Act(bool),
}

// An entry of a schedule: a worker's number and what is asked of it.
#[derive(Clone, Copy)]
pub enum Entry {
    Unreadable,
    Asks(u64, Order),
}

// The calls in the order of their codes.
fn call_of(code: u64, item: u64) -> Call
    ensures { result ≡ call_of code item }
{
    match code {
        0 => Call::Push(item),
        1 => Call::ForcePush(item),
        2 => Call::Pop,
        3 => Call::Len,
        4 => Call::IsEmpty,
        5 => Call::IsFull,
        6 => Call::Close,
        _ => Call::IsClosed,
    }
}

// An item where none may be.
#[tactic(auto, unfolding(crate::specs::Entries::stray_of))]
fn stray(code: u64, item: u64) -> bool
    ensures { result ≡ stray_of code item }
{
    1 < code && item != 0
}

// "First = 16 × worker + code; second = item."
pub fn entry_of(first: u64, second: u64) -> Entry
    ensures { result ≡ entry_of first second }
{
    let worker = first / 16;
    let code = first % 16;
    if stray(code, second) {
        return Entry::Unreadable;
    }
    match code {
        0..=7 => Entry::Asks(worker, Order::Begin(call_of(code, second))),
        8..=9 => Entry::Asks(worker, Order::Act(code == 9)),
        _ => Entry::Unreadable,
    }
}

// As a queue reads them that has no call of this code.
pub fn entry_but(barred: u64, first: u64, second: u64) -> Entry
    ensures { result ≡ entry_but barred first second }
{
    if first % 16 == barred {
        return Entry::Unreadable;
    }
    entry_of(first, second)
}

// The search of a schedule for refusal 9: the place of the first entry that can't be read.
pub fn search_but(barred: u64, schedule: &[u64]) -> Option<usize>
    ensures { result ≡ search_by (entry_but barred) 0 schedule.now }
{
    let n = schedule.len() / 2;
    for i in 0..n {
        let Entry::Asks(_, _) = entry_but(barred, schedule[2 * i], schedule[2 * i + 1]) else {
            return Some(i);
        };
    }
    None
}

// No code is 16: every call is there.
pub fn search(schedule: &[u64]) -> Option<usize>
    ensures { result ≡ search_by entry_of 0 schedule.now }
{
    search_but(16, schedule)
}

// What becomes of an entry's worker: a refusal, a call begun, or an act.
#[derive(Clone, Copy)]
pub enum Verdict {
    Refuse(u64),
    Start(Call),
    Move(bool),
}

// Of a worker that is busy or idle, whose next action is a weak exchange or not.
pub fn verdict_for(meter: u64, busy: bool, weak: bool, o: Order) -> Verdict
    ensures { result ≡ verdict_for meter busy weak o }
{
    match o {
        Order::Begin(_) if busy => Verdict::Refuse(4),
        Order::Begin(c) => Verdict::Start(c),
        Order::Act(_) if !busy => Verdict::Refuse(5),
        Order::Act(_) if METER <= meter => Verdict::Refuse(7),
        Order::Act(false) => Verdict::Move(false),
        Order::Act(true) if weak => Verdict::Move(true),
        Order::Act(true) => Verdict::Refuse(8),
    }
}
