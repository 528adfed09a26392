// Stock, counted along a run: document 02's item 4.
#![tactic(auto)]

ghost use Rattle.std.specs.Prelude.{◌≡◌};
ghost use Rattle.bounded_machine.specs.History.{moved_of, reads_at, stock_of};
ghost use Rattle.bounded_stock.specs.Stock.{one_more_act, next_claim, with_claim, with_read, tallied_of};

use bounded_machine::Tally;
use bounded_places::{Moved, Place};
use bounded_words::Claim;

// Which end the act that led to this place moved.
pub fn moved_by(after: Place) -> Moved
    ensures { result ≡ moved_of after }
{
    bounded_places::view_of(after).moved
}

// Whether the act at this place reads a value out.
pub fn reads_at(before: Place) -> bool
    ensures { result ≡ reads_at before }
{
    bounded_places::view_of(before).reads
}

#[tactic(auto, unfolding(crate::specs::Stock::one_more_act))]
fn one_more(n: u64) -> u64
    ensures { result ≡ one_more_act n }
{
    n.wrapping_add(1)
}

#[tactic(auto, unfolding(crate::specs::Stock::next_claim))]
fn next_claim(k: Claim) -> Claim
    ensures { result ≡ next_claim k }
{
    Claim(one_more(k.0))
}

fn with_claim(t: Tally, after: Place) -> Tally
    ensures { result ≡ with_claim t (moved_of after) }
{
    match moved_by(after) {
        Moved::Neither => t,
        Moved::Tail => Tally {
            tail: next_claim(t.tail),
            ..t
        },
        Moved::Head => Tally {
            head: next_claim(t.head),
            ..t
        },
    }
}

fn with_read(t: Tally, before: Place) -> Tally
    ensures { result ≡ with_read t (reads_at before) }
{
    if reads_at(before) {
        Tally {
            reads: one_more(t.reads),
            ..t
        }
    } else {
        t
    }
}

// The claims at both ends and the values read, counted on by the act that led from one place to the other.
pub fn tally(t: Tally, before: Place, after: Place) -> Tally
    ensures { result ≡ tallied_of t before after }
{
    with_read(with_claim(t, after), before)
}

// "An item is in stock from its tail claim until its value is read out"
#[tactic(auto, unfolding(bounded_machine::specs::History::stock_of))]
pub fn stock(t: Tally) -> u64
    ensures { result ≡ stock_of t }
{
    t.tail.0.saturating_sub(t.reads)
}
