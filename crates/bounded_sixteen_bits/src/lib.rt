// The machine of sixteen bits: head, tail and every stamp are sixteen-bit numbers, by its type. Widened to the one machine, and narrowed again.
#![tactic(auto)]

ghost use Rattle.std.specs.Prelude.{◌≡◌, map};
ghost use Rattle.bounded_sixteen_bits.specs.SixteenBits.{wide_slot, narrow_slot, widened, narrowed, narrowed_did, narrowed_ran, ShortSlots, Short};

use bounded_places::Worker;

// A word of head, of tail or of a slot.
#[derive(Clone, Copy)]
pub struct Stamp(pub u16);

#[derive(Clone, Copy)]
pub struct Slot {
    pub stamp: Stamp,
    pub value: u64,
}

#[derive(Clone, Copy)]
pub struct Ring {
    pub head: Stamp,
    pub tail: Stamp,
    pub mark: u64,
    pub lap: u64,
    pub capacity: u64,
    pub edition: u64,
    pub slots: [Slot; bounded_words::SLOTS],
}

// The words that workers hold are those of the one machine: a record handed in with a larger one follows the tables.
#[derive(Clone, Copy)]
pub struct Machine {
    pub ring: Ring,
    pub workers: [Worker; queue_entries::WORKERS],
    pub count: u64,
    pub meter: u64,
}

#[derive(Clone, Copy)]
pub struct Did {
    pub refusal: u64,
    pub machine: Machine,
}

#[derive(Clone, Copy)]
pub struct Ran {
    pub refusal: u64,
    pub place: u64,
    pub machine: Machine,
}

fn widen_slots(slots: [Slot; bounded_words::SLOTS]) -> [bounded_places::Slot; bounded_words::SLOTS]
    ensures same { result ≡ map wide_slot slots }
    ensures short { ShortSlots result }
{
    let mut wide = [bounded_places::Slot {
        stamp: bounded_words::Stamp(0),
        value: 0,
    }; bounded_words::SLOTS];
    for (i, s) in slots.iter().enumerate() {
        wide[i] = bounded_places::Slot {
            stamp: bounded_words::Stamp(u64::from(s.stamp.0)),
            value: s.value,
        };
    }
    wide
}

pub fn widen(m: Machine) -> bounded_machine::Machine
    ensures same { result ≡ widened m }
    ensures short { Short result }
{
    let ring = m.ring;
    let slots = ring.slots;
    let slots = widen_slots(slots);
    let workers = m.workers;
    bounded_machine::Machine {
        ring: bounded_machine::Ring {
            head: bounded_words::Stamp(u64::from(ring.head.0)),
            tail: bounded_words::Stamp(u64::from(ring.tail.0)),
            mark: ring.mark,
            lap: ring.lap,
            capacity: ring.capacity,
            edition: ring.edition,
            slots,
        },
        workers,
        count: m.count,
        meter: m.meter,
    }
}

fn narrow_slots(slots: [bounded_places::Slot; bounded_words::SLOTS]) -> [Slot; bounded_words::SLOTS]
    requires { ShortSlots slots }
    ensures { result ≡ map narrow_slot slots }
{
    let mut short = [Slot {
        stamp: Stamp(0),
        value: 0,
    }; bounded_words::SLOTS];
    for (i, s) in slots.iter().enumerate() {
        short[i] = Slot {
            stamp: Stamp(s.stamp.0 as u16),
            value: s.value,
        };
    }
    short
}

fn narrow(m: bounded_machine::Machine) -> Machine
    requires { Short m }
    ensures { result ≡ narrowed m }
{
    let ring = m.ring;
    let slots = ring.slots;
    let slots = narrow_slots(slots);
    let workers = m.workers;
    Machine {
        ring: Ring {
            head: Stamp(ring.head.0 as u16),
            tail: Stamp(ring.tail.0 as u16),
            mark: ring.mark,
            lap: ring.lap,
            capacity: ring.capacity,
            edition: ring.edition,
            slots,
        },
        workers,
        count: m.count,
        meter: m.meter,
    }
}

pub fn narrow_did(d: bounded_machine::Did) -> Did
    requires { Short d.machine }
    ensures { result ≡ narrowed_did d }
{
    Did {
        refusal: d.refusal,
        machine: narrow(d.machine),
    }
}

pub fn narrow_ran(a: bounded_machine::Ran) -> Ran
    requires { Short a.machine }
    ensures { result ≡ narrowed_ran a }
{
    Ran {
        refusal: a.refusal,
        place: a.place,
        machine: narrow(a.machine),
    }
}
