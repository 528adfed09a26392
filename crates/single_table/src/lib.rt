// Which action of src/single.rs is taken at which place. The actions themselves: crate single_acts.
#![tactic(auto)]

ghost use Rattle.std.specs.Prelude.{◌≡◌};
ghost use Rattle.single_acts.specs.Acts.{act_of};

use single_acts::Acted;
use single_places::{Place, Single};

// One act of a worker that stands at p.
pub fn act_at(s: Single, p: Place) -> Acted
    ensures { result ≡ act_of s p }
{
    match p {
        Place::Idle(a) => single_acts::goes(s, Place::Idle(a)),
        Place::A1(item) => single_acts::a1(s, item),
        Place::A2(item) => single_acts::a2(s, item),
        Place::A3 => single_acts::a3(s),
        Place::B1(e, item) => single_acts::b1(s, e, item),
        Place::B2(item) => single_acts::b2(s, item),
        Place::B3 => single_acts::b3(s),
        Place::B4(item) => single_acts::b4(s, item),
        Place::B5(old) => single_acts::b5(s, old),
        Place::C1(e) => single_acts::c1(s, e),
        Place::C2 => single_acts::c2(s),
        Place::C3(value) => single_acts::c3(s, value),
        Place::Len1 => single_acts::len1(s),
        Place::Empty1 => single_acts::empty1(s),
        Place::Full1 => single_acts::full1(s),
        Place::Close1 => single_acts::close1(s),
        Place::IsClosed1 => single_acts::is_closed1(s),
    }
}
