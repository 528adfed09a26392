// What is asked of a place, as `unbounded_places::view_of` says it, in two copies with one caller each: the loop over a schedule asks before an act and after
// it, and a function that two call is not put into the loop (docs/SPEED.md, "The unbounded queue").
#![tactic(auto)]

ghost use Rattle.std.specs.Prelude.{◌≡◌};
ghost use Rattle.unbounded_words.specs.Words.{sizes};
ghost use Rattle.unbounded_places.specs.Places.{at, exchanging, taking, on_block, on_slot, on_indexed, view_of};

use unbounded_places::{Place, Uses, View};
use unbounded_words::{Index, Pointer};

fn at() -> View
    ensures { result ≡ at }
{
    View {
        busy: true,
        weak: false,
        takes: false,
        uses: Uses::Nothing,
    }
}

fn exchanging() -> View
    ensures { result ≡ exchanging }
{
    View {
        busy: true,
        weak: true,
        takes: false,
        uses: Uses::Nothing,
    }
}

fn taking() -> View
    ensures { result ≡ taking }
{
    View {
        busy: true,
        weak: false,
        takes: true,
        uses: Uses::Nothing,
    }
}

fn on_block(b: Pointer) -> View
    ensures { result ≡ on_block sizes b }
{
    View {
        busy: true,
        weak: false,
        takes: false,
        uses: Uses::Block(unbounded_words::number(b)),
    }
}

fn on_slot(b: Pointer, i: u64) -> View
    ensures { result ≡ on_slot sizes b i }
{
    View {
        busy: true,
        weak: false,
        takes: false,
        uses: Uses::Slot(unbounded_words::number(b), i),
    }
}

// The slot of b at the offset of w.
fn on_indexed(b: Pointer, w: Index) -> View
    ensures { result ≡ on_indexed sizes b w }
{
    on_slot(b, unbounded_words::offset(w))
}

// Of where a worker stands before an entry.
pub fn view_before(p: Place) -> View
    ensures { result ≡ view_of sizes p }
{
    match p {
        Place::Idle(_) => View {
            busy: false,
            weak: false,
            takes: false,
            uses: Uses::Nothing,
        },
        Place::U1(_, _) => at(),
        Place::U2(_, _, _) => at(),
        Place::U3(_, _, _) => taking(),
        Place::U4(_, _, _) => taking(),
        Place::U5(_, _, _, _) => at(),
        Place::U6(_, _, _, _) => at(),
        Place::U7(_, _, _, _) => exchanging(),
        Place::U8(_, _, _) => at(),
        Place::U9(n, _, _, _) => on_block(n),
        Place::U10(_, _, _, _) => at(),
        Place::U11(_, _, b, _) => on_block(b),
        Place::U12(_, t, b, _) => on_indexed(b, t),
        Place::U13(_, t, b) => on_indexed(b, t),
        Place::U14(n, _) => on_block(n),
        Place::U15(n, _, _) => on_block(n),
        Place::V1 => at(),
        Place::V2(_) => at(),
        Place::V3(_, _) => at(),
        Place::V4(_, _, _) => exchanging(),
        Place::V5(_) => at(),
        Place::V6(_, b, _) => on_block(b),
        Place::V7(_, _, _, next) => on_block(next),
        Place::V8(_, _, _, _) => at(),
        Place::V9(_, _, _) => at(),
        Place::V10(h, b) => on_indexed(b, h),
        Place::V11(h, b) => on_indexed(b, h),
        Place::V12(h, b, _) => on_indexed(b, h),
        Place::V13(b, i, _) => on_slot(b, i),
        Place::V14(b, i, _) => on_slot(b, i),
        Place::V15(b, _) => on_block(b),
        Place::Len1 => at(),
        Place::Len2(_) => at(),
        Place::Len3(_, _) => at(),
        Place::Empty1 => at(),
        Place::Empty2(_) => at(),
        Place::Full1 => at(),
        Place::Close1 => at(),
        Place::IsClosed1 => at(),
    }
}

// Of where it stands after it.
pub fn view_after(p: Place) -> View
    ensures { result ≡ view_of sizes p }
{
    match p {
        Place::Idle(_) => View {
            busy: false,
            weak: false,
            takes: false,
            uses: Uses::Nothing,
        },
        Place::U1(_, _) => at(),
        Place::U2(_, _, _) => at(),
        Place::U3(_, _, _) => taking(),
        Place::U4(_, _, _) => taking(),
        Place::U5(_, _, _, _) => at(),
        Place::U6(_, _, _, _) => at(),
        Place::U7(_, _, _, _) => exchanging(),
        Place::U8(_, _, _) => at(),
        Place::U9(n, _, _, _) => on_block(n),
        Place::U10(_, _, _, _) => at(),
        Place::U11(_, _, b, _) => on_block(b),
        Place::U12(_, t, b, _) => on_indexed(b, t),
        Place::U13(_, t, b) => on_indexed(b, t),
        Place::U14(n, _) => on_block(n),
        Place::U15(n, _, _) => on_block(n),
        Place::V1 => at(),
        Place::V2(_) => at(),
        Place::V3(_, _) => at(),
        Place::V4(_, _, _) => exchanging(),
        Place::V5(_) => at(),
        Place::V6(_, b, _) => on_block(b),
        Place::V7(_, _, _, next) => on_block(next),
        Place::V8(_, _, _, _) => at(),
        Place::V9(_, _, _) => at(),
        Place::V10(h, b) => on_indexed(b, h),
        Place::V11(h, b) => on_indexed(b, h),
        Place::V12(h, b, _) => on_indexed(b, h),
        Place::V13(b, i, _) => on_slot(b, i),
        Place::V14(b, i, _) => on_slot(b, i),
        Place::V15(b, _) => on_block(b),
        Place::Len1 => at(),
        Place::Len2(_) => at(),
        Place::Len3(_, _) => at(),
        Place::Empty1 => at(),
        Place::Empty2(_) => at(),
        Place::Full1 => at(),
        Place::Close1 => at(),
        Place::IsClosed1 => at(),
    }
}
