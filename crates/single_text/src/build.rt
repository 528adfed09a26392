// Machines built by hand, field by field.
use single_machine::Machine;
use single_places::{Place, Single, Worker};
use single_words::State;

pub fn with_single(m: Machine, state: u64, value: u64) -> Machine {
    Machine {
        single: Single {
            state: State(state),
            value,
        },
        ..m
    }
}

pub fn with_place(m: Machine, i: usize, place: Place) -> Machine {
    let mut after = m;
    if i < queue_entries::WORKERS {
        after.workers[i] = Worker { place };
    }
    after
}

pub fn with_numbers(m: Machine, count: u64, meter: u64) -> Machine {
    Machine { count, meter, ..m }
}
