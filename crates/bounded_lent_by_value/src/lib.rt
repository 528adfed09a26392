// The lent face for callers that keep ring and records by value, as programs do: both go in by value, are lent for one step or for a schedule, and come out by value.
#![tactic(auto)]

ghost use Rattle.std.specs.Prelude.{◌≡◌};
ghost use Rattle.bounded_lent_by_value.specs.Lends.{at_most_of, lends_of, passes_of};

use bounded_orders::{Metered, Report};
use bounded_places::Worker;

// What a step leaves, and the number of its refusal; 0 where it was not refused.
#[derive(Clone, Copy)]
pub struct Stepped {
    pub refusal: u64,
    pub ring: Metered,
    pub records: [Worker; bounded_orders::RECORDS],
}

// What a schedule leaves, and what it reports.
#[derive(Clone, Copy)]
pub struct Passed {
    pub report: Report,
    pub ring: Metered,
    pub records: [Worker; bounded_orders::RECORDS],
}

fn at_most(count: usize) -> usize
    ensures { result ≡ at_most_of count }
{
    count.min(bounded_orders::RECORDS)
}

// The first so many of the records are lent, or all of them.
pub fn lend(
    l: Metered,
    all: [Worker; bounded_orders::RECORDS],
    count: usize,
    first: u64,
    second: u64,
) -> Stepped
    ensures { result ≡ lends_of l all count first second }
{
    let mut ring = l;
    let mut records = all;
    let n = at_most(count);
    let refusal = bounded_lent::step(&mut ring, &mut records[..n], first, second);
    Stepped {
        refusal,
        ring,
        records,
    }
}

pub fn lend_all(
    l: Metered,
    all: [Worker; bounded_orders::RECORDS],
    count: usize,
    schedule: &[u64],
) -> Passed
    ensures { result ≡ passes_of l all count schedule.now }
{
    let mut ring = l;
    let mut records = all;
    let n = at_most(count);
    let report = bounded_lent::run(&mut ring, &mut records[..n], schedule);
    Passed {
        report,
        ring,
        records,
    }
}
