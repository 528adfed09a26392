// The two tables of document 01 with the lookers: which action is taken at which place.
// The actions themselves: bounded_pushes, bounded_forces, bounded_pops, bounded_lookers; their definitions: bounded_acts.
#![tactic(auto)]

ghost use Rattle.std.specs.Prelude.{◌≡◌};
ghost use Rattle.bounded_acts.specs.Acts.{act_of, Fits};

use bounded_acts::Acted;
use bounded_places::{Ends, Place, Slot};
use bounded_words::{Fixed, Width};

// One act of a worker that stands at p, on the ends and on the slot at its word; lose: its weak exchange fails.
pub fn act_at(bits: Width, f: Fixed, e: Ends, s: Slot, p: Place, lose: bool) -> Acted
    requires { Fits f p }
    ensures { result ≡ act_of bits f e s p lose }
{
    match p {
        Place::Idle(a) => bounded_acts::goes(e, s, Place::Idle(a)),
        Place::P1(k, item) => bounded_pushes::p1(f, e, s, k, item),
        Place::P2(k, t, item) => bounded_pushes::p2(bits, f, e, s, k, t, item),
        Place::P3(k, t, item) => bounded_pushes::p3(bits, f, e, s, k, t, item, lose),
        Place::P4(t, item) => bounded_acts::goes(e, bounded_acts::value_to(s, item), Place::P5(t)),
        Place::P5(t) => bounded_pushes::p5(bits, e, s, t),
        Place::P6(t, item) => bounded_pushes::p6(bits, f, e, s, t, item),
        Place::F6(t, item) => bounded_forces::f6(bits, f, e, s, t, item, lose),
        Place::F7(t, item) => bounded_forces::f7(bits, f, e, s, t, item),
        Place::F8(t, item) => bounded_forces::f8(e, s, t, item),
        Place::F9(t, old) => bounded_forces::f9(bits, e, s, t, old),
        Place::O1 => bounded_acts::goes(e, s, Place::O2(e.head)),
        Place::O2(h) => bounded_pops::o2(bits, e, s, h),
        Place::O3(h) => bounded_pops::o3(bits, f, e, s, h, lose),
        Place::O4(h) => bounded_acts::goes(e, s, Place::O5(h, s.value)),
        Place::O5(h, value) => bounded_pops::o5(bits, f, e, s, h, value),
        Place::O6(h) => bounded_pops::o6(f, e, s, h),
        Place::Len1 => bounded_acts::goes(e, s, Place::Len2(e.tail)),
        Place::Len2(t) => bounded_acts::goes(e, s, Place::Len3(t, e.head)),
        Place::Len3(t, h) => bounded_lookers::len3(f, e, s, t, h),
        Place::Empty1 => bounded_acts::goes(e, s, Place::Empty2(e.head)),
        Place::Empty2(h) => bounded_lookers::empty2(f, e, s, h),
        Place::Full1 => bounded_acts::goes(e, s, Place::Full2(e.tail)),
        Place::Full2(t) => bounded_lookers::full2(bits, f, e, s, t),
        Place::Close1 => bounded_lookers::close1(bits, f, e, s),
        Place::IsClosed1 => bounded_lookers::is_closed1(f, e, s),
    }
}
