// Whether two machines are the same in every field: what a refused call must leave.
use single_machine::Machine;

pub fn machines(a: Machine, b: Machine) -> bool {
    for i in 0..queue_entries::WORKERS {
        if crate::code::of(a.workers[i].place) != crate::code::of(b.workers[i].place) {
            return false;
        }
    }
    crate::numbers(a) == crate::numbers(b)
}
