// Request 12's table with the lookers: which action is taken at which place. The actions themselves: crates unbounded_acts and unbounded_pops.
#![tactic(auto)]

ghost use Rattle.std.specs.Prelude.{◌≡◌};
ghost use Rattle.unbounded_words.specs.Words.{sizes};
ghost use Rattle.unbounded_acts.specs.Acts.{act_of};

use unbounded_acts::Acted;
use unbounded_places::{Answer, Block, Ends, Place, Slot};

// One act of a worker that stands at p, on the ends, on block k whose header is g, on a slot of it; lose: its weak exchange fails.
pub fn act_at(e: Ends, k: u64, g: Block, s: Slot, p: Place, lose: bool) -> Acted
    ensures { result ≡ act_of sizes e k g s p lose }
{
    let head = e.head;
    let tail = e.tail;
    match p {
        Place::Idle(a) => unbounded_acts::leave(e, g, s, Place::Idle(a)),
        Place::U1(n, item) => unbounded_acts::leave(e, g, s, Place::U2(n, tail, item)),
        Place::U2(n, t, item) => unbounded_acts::u2(e, g, s, n, t, item),
        Place::U3(t, b, item) => unbounded_acts::u3(e, k, s, t, b, item),
        Place::U4(n, t, item) => unbounded_acts::u4(e, k, s, n, t, item),
        Place::U5(n, t, new, item) => unbounded_acts::u5(e, g, s, n, t, new, item),
        Place::U6(n, t, new, item) => unbounded_acts::u6(e, g, s, n, t, new, item),
        Place::U7(n, t, b, item) => unbounded_acts::u7(e, g, s, n, t, b, item, lose),
        Place::U8(n, t, item) => unbounded_acts::u2(e, g, s, n, t, item),
        Place::U9(n, t, b, item) => unbounded_acts::u9(e, g, s, n, t, b, item),
        Place::U10(n, t, b, item) => unbounded_acts::u10(e, g, s, n, t, b, item),
        Place::U11(n, t, b, item) => unbounded_acts::u11(e, g, s, n, t, b, item),
        Place::U12(n, t, b, item) => unbounded_acts::u12(e, g, s, n, t, b, item),
        Place::U13(n, _, _) => unbounded_acts::u13(e, g, s, n),
        Place::U14(_, a) => unbounded_acts::u14(e, g, s, a),
        Place::U15(_, new, item) => unbounded_acts::u15(e, g, s, new, item),
        Place::V1 => unbounded_acts::leave(e, g, s, Place::V2(head)),
        Place::V2(h) => unbounded_pops::v2(e, g, s, h),
        Place::V3(h, b) => unbounded_pops::v3(e, g, s, h, b),
        Place::V4(h, b, new) => unbounded_pops::v4(e, g, s, h, b, new, lose),
        Place::V5(h) => unbounded_pops::v2(e, g, s, h),
        Place::V6(h, b, new) => unbounded_pops::v6(e, g, s, h, b, new),
        Place::V7(h, b, new, next) => unbounded_pops::v7(e, g, s, h, b, new, next),
        Place::V8(h, b, next, i) => unbounded_pops::v8(e, g, s, h, b, next, i),
        Place::V9(h, b, i) => unbounded_pops::v9(e, g, s, h, b, i),
        Place::V10(h, b) => unbounded_pops::v10(e, g, s, h, b),
        Place::V11(h, b) => unbounded_pops::v11(e, g, s, h, b),
        Place::V12(h, b, value) => unbounded_pops::v12(e, g, s, h, b, value),
        Place::V13(b, i, value) => unbounded_pops::v13(e, g, s, b, i, value),
        Place::V14(b, i, value) => unbounded_pops::v14(e, g, s, b, i, value),
        Place::V15(_, value) => unbounded_pops::v15(e, g, s, value),
        Place::Len1 => unbounded_acts::leave(e, g, s, Place::Len2(tail)),
        Place::Len2(t) => unbounded_acts::leave(e, g, s, Place::Len3(t, head)),
        Place::Len3(t, h) => unbounded_acts::len3(e, g, s, t, h),
        Place::Empty1 => unbounded_acts::leave(e, g, s, Place::Empty2(head)),
        Place::Empty2(h) => unbounded_acts::empty2(e, g, s, h),
        Place::Full1 => unbounded_acts::leave(e, g, s, Place::Idle(Answer::No)),
        Place::Close1 => unbounded_acts::close1(e, g, s),
        Place::IsClosed1 => unbounded_acts::is_closed1(e, g, s),
    }
}
