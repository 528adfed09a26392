// Every sequence of acts from a machine, of so many acts or ending sooner because all workers are idle: listed in a lent buffer, or counted.
// Each function takes anything and answers, or refuses with document 02's number.
#![tactic(auto)]

ghost use Rattle.std.specs.Prelude.{◌≡◌, ◌++◌, ◌-◌, ◌≤◌, length, take};
ghost use Rattle.std.proofs.lemmas.List.Edits.{sets};
ghost use Rattle.queue_entries.specs.Limits.{workers_most, meter_most};
ghost use Rattle.queue_walks.specs.Walks.{walkers_most};
ghost use Rattle.queue_walks.specs.Listed.{bytes_of, walked, counted};
ghost use Rattle.bounded_sequences.specs.Sequences.{walk_of};
ghost use Rattle.bounded_walks.specs.Walks.{all_busy, size_refusal, walk_told, listed, size_of, number_of, row_of};

use bounded_machine::Machine;
use bounded_places::{Ends, Slot, Worker};
use bounded_sequences::State;
use bounded_words::Fixed;
use queue_walks::Walked;

fn all_busy(m: Machine) -> bool
    requires { m.count ≤ workers_most }
    ensures { result ≡ all_busy m }
{
    let workers = m.workers;
    let count = m.count as usize;
    for i in 0..count {
        let worker = workers[i];
        let view = bounded_places::view_of(worker.place);
        if !view.busy {
            return false;
        }
    }
    true
}

fn acts_left(meter: u64) -> u64
    ensures { result ≡ meter_most - meter }
{
    if meter < queue_entries::METER {
        queue_entries::METER - meter
    } else {
        0
    }
}

// Order: 6, 19, 20, 21; 0 where it is not refused, as `size_refusal` of specs/Walks.antt has it.
fn refusal_of(m: Machine, depth: u64) -> u64
    ensures { result ≡ size_refusal m depth }
{
    if bounded_machine::broken(m) {
        return 6;
    }
    if queue_walks::WALKERS < m.count {
        return 19;
    }
    if (queue_walks::DEPTH as u64) < depth {
        return 19;
    }
    if !all_busy(m) {
        return 20;
    }
    if acts_left(m.meter) < depth {
        return 21;
    }
    0
}

fn number_of(slot: Slot, value: bool) -> u64
    ensures { result ≡ number_of value slot }
{
    if value { slot.value } else { slot.stamp.0 }
}

// One row of the slots' numbers: their values, or their stamps.
fn row_of(slots: [Slot; bounded_words::SLOTS], value: bool) -> [u64; bounded_words::SLOTS]
    ensures { result ≡ row_of value slots }
{
    let mut row = [0; bounded_words::SLOTS];
    for i in 0..bounded_words::SLOTS {
        row[i] = number_of(slots[i], value);
    }
    row
}

// The records that a walk can use; those past them are idle all along.
fn first_records(workers: [Worker; queue_entries::WORKERS]) -> [Worker; bounded_sequences::RECORDS]
    ensures answer { result ≡ take walkers_most workers }
    ensures whole { length workers ≡ workers_most }
{
    let worker = workers[0];
    let mut first = [worker; bounded_sequences::RECORDS];
    first[1] = workers[1];
    first[2] = workers[2];
    first
}

// As much of the list as the buffer holds, and its numbers.
fn walk_into(m: Machine, depth: u64, out: &mut [u8]) -> Walked
    requires { size_refusal m depth ≡ 0 }
    ensures answer { result ≡ counted (walked 0 0) (walk_of depth m) }
    ensures lent { out.new ≡ sets out.old 0 (bytes_of (walk_of depth m)) }
{
    let ring = m.ring;
    let f = ring.fixed();
    let e = ring.ends();
    let slots = ring.slots;
    let records = m.workers;
    let workers = first_records(records);
    let mut stamps = row_of(slots, false);
    let mut values = row_of(slots, true);
    bounded_sequences::walk_state(
        State {
            fixed: f,
            ends: e,
            workers,
            count: m.count,
            meter: m.meter,
        },
        &mut stamps,
        &mut values,
        depth as usize,
        [0; queue_walks::DEPTH],
        0,
        out,
        Walked {
            sequences: 0,
            bytes: 0,
        },
    )
}

// The number of sequences and of bytes, for a host that lends a buffer that fits.
pub fn size(m: Machine, depth: u64) -> Result<Walked, u64>
    ensures { result ≡ size_of m depth }
{
    let refusal = refusal_of(m, depth);
    if refusal == 0 {
        let mut none = [0u8; 1];
        Ok(walk_into(m, depth, &mut none))
    } else {
        Err(refusal)
    }
}

// The list, written at the buffer's start.
pub fn walk(m: Machine, depth: u64, buffer: &mut [u8]) -> Result<u64, u64>
    ensures answer { result ≡ walk_told m depth buffer.old }
    ensures lent { buffer.new ≡ listed m depth buffer.old }
{
    let sized = size(m, depth)?;
    if buffer.len() < sized.bytes {
        return Err(22);
    }
    let told = walk_into(m, depth, buffer);
    Ok(told.sequences)
}
