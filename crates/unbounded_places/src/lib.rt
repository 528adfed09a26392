// Where a worker stands, what it has loaded, and what a call answers: request 12's table of src/unbounded.rs.
#![tactic(auto)]

ghost use Rattle.std.specs.Prelude.{◌≡◌};
ghost use Rattle.unbounded_words.specs.Words.{sizes};
ghost use Rattle.unbounded_places.specs.Places.{at, exchanging, taking, on_block, on_slot, on_indexed, view_of, begin_of};

use queue_entries::Call;
use unbounded_words::{Index, Pointer};

// A slot of a block. State: 1 is WRITE, 2 READ, 4 DESTROY.
#[derive(Clone, Copy)]
pub struct Slot {
    pub state: u64,
    pub value: u64,
}

// A block of the pool, without its slots.
#[derive(Clone, Copy)]
pub struct Block {
    // The next block in the linked list.
    pub next: Pointer,
    // Nobody has taken it.
    pub free: bool,
}

// The words of head and of tail: `head.index`, `head.block`, `tail.index`, `tail.block`.
#[derive(Clone, Copy)]
pub struct Ends {
    pub head: Index,
    pub front: Pointer,
    pub tail: Index,
    pub back: Pointer,
}

// What a call answered. Closed hands the caller's item back; PopClosed is pop's Closed.
#[derive(Clone, Copy)]
pub enum Answer {
    Nothing,
    Pushed,
    Closed(u64),
    Popped(u64),
    Empty,
    PopClosed,
    Len(u64),
    Yes,
    No,
}

// Where a worker stands: the action that it takes next, with its words in the table's order. t and h are indices of tail and head, b the
// block that came with them, n the block set aside for later or none, item the call's, value the one read.
#[derive(Clone, Copy)]
pub enum Place {
    // No call under way: the last answer.
    Idle(Answer),
    // push: load tail's index. (n, item)
    U1(Pointer, u64),
    // Load tail's block. (n, t, item)
    U2(Pointer, Index, u64),
    // The next slot is its block's last: take a block now and set it aside, so that nobody waits long for it. (t, b, item)
    U3(Index, Pointer, u64),
    // There is no block yet: take the first. (n, t, item)
    U4(Pointer, Index, u64),
    // Install it: tail's block from none to new, a strong exchange. (n, t, new, item)
    U5(Pointer, Index, Pointer, u64),
    // It is the first: store it in head's block too. (n, t, new, item)
    U6(Pointer, Index, Pointer, u64),
    // Try to claim: tail's index from t to t + 2, a weak exchange. (n, t, b, item)
    U7(Pointer, Index, Pointer, u64),
    // Lost: load tail's block, to try again with the index found. (n, t, item)
    U8(Pointer, Index, u64),
    // A block's last slot was claimed: store the block set aside in tail's block, .. (n, t, b, item, to U12)
    U9(Pointer, Index, Pointer, u64),
    // .. move tail's index over the block's end, ..
    U10(Pointer, Index, Pointer, u64),
    // .. and store it as the next of the old block.
    U11(Pointer, Index, Pointer, u64),
    // The slot is this worker's: write the item.
    U12(Pointer, Index, Pointer, u64),
    // Set WRITE, by which a pop sees that the item is there. (n, t, b)
    U13(Pointer, Index, Pointer),
    // Free the block set aside, then give the answer.
    U14(Pointer, Answer),
    // Free the block set aside, and go on with new in its place. (n, new, item)
    U15(Pointer, Pointer, u64),
    // pop: load head's index.
    V1,
    // Load head's block. (h)
    V2(Index),
    // head's block may be the last: load tail's index, to tell Empty or Closed from an item. (h, b)
    V3(Index, Pointer),
    // Try to claim: head's index from h to new, a weak exchange. (h, b, new)
    V4(Index, Pointer, Index),
    // Lost: load head's block, to try again with the index found. (h)
    V5(Index),
    // A block's last slot was claimed: load its next until there is one, .. (h, b, new)
    V6(Index, Pointer, Index),
    // .. load that one's next, to know whether head's mark is due, .. (h, b, new, next)
    V7(Index, Pointer, Index, Pointer),
    // .. store it in head's block .. (h, b, next, index)
    V8(Index, Pointer, Pointer, Index),
    // .. and move head's index over the block's end. (h, b, index)
    V9(Index, Pointer, Index),
    // The slot is this worker's: load its state until WRITE is set. (h, b, to V12)
    V10(Index, Pointer),
    // Read the value.
    V11(Index, Pointer),
    // Set READ; if DESTROY was set, the block is this worker's to free. (h, b, value)
    V12(Index, Pointer, u64),
    // Free the block, slot by slot: load the state of slot i. (b, i, value)
    V13(Pointer, u64, u64),
    // Its pop has not read it: set DESTROY, so that it goes on with the freeing. (b, i, value)
    V14(Pointer, u64, u64),
    // All slots are read: free the block. (b, value)
    V15(Pointer, u64),
    // len: load tail's index, then head's, then tail's once more, which must be the first.
    Len1,
    Len2(Index),
    // tail, head
    Len3(Index, Index),
    // is_empty: load head's index, then tail's.
    Empty1,
    Empty2(Index),
    // is_full: one act that loads nothing.
    Full1,
    // close: set the mark of tail's index.
    Close1,
    // is_closed: load tail's index.
    IsClosed1,
}

// The record of a worker.
#[derive(Clone, Copy)]
pub struct Worker {
    pub place: Place,
}

// What a next act uses: "reads or writes a word or a value of the block, or frees it". Of no block the number is that of none.
#[derive(Clone, Copy)]
pub enum Uses {
    Nothing,
    Block(u64),
    Slot(u64, u64),
}

// What every rule asks of a place.
#[derive(Clone, Copy)]
pub struct View {
    pub busy: bool,
    // its action is a weak exchange
    pub weak: bool,
    // its action takes a block
    pub takes: bool,
    pub uses: Uses,
}

fn at() -> View
    ensures { result ≡ at }
{
    View {
        busy: true,
        weak: false,
        takes: false,
        uses: Uses::Nothing,
    }
}

fn exchanging() -> View
    ensures { result ≡ exchanging }
{
    View {
        busy: true,
        weak: true,
        takes: false,
        uses: Uses::Nothing,
    }
}

fn taking() -> View
    ensures { result ≡ taking }
{
    View {
        busy: true,
        weak: false,
        takes: true,
        uses: Uses::Nothing,
    }
}

fn on_block(b: Pointer) -> View
    ensures { result ≡ on_block sizes b }
{
    View {
        busy: true,
        weak: false,
        takes: false,
        uses: Uses::Block(unbounded_words::number(b)),
    }
}

fn on_slot(b: Pointer, i: u64) -> View
    ensures { result ≡ on_slot sizes b i }
{
    View {
        busy: true,
        weak: false,
        takes: false,
        uses: Uses::Slot(unbounded_words::number(b), i),
    }
}

// The slot of b at the offset of w.
fn on_indexed(b: Pointer, w: Index) -> View
    ensures { result ≡ on_indexed sizes b w }
{
    on_slot(b, unbounded_words::offset(w))
}

pub fn view_of(p: Place) -> View
    ensures { result ≡ view_of sizes p }
{
    match p {
        Place::Idle(_) => View {
            busy: false,
            weak: false,
            takes: false,
            uses: Uses::Nothing,
        },
        Place::U1(_, _) => at(),
        Place::U2(_, _, _) => at(),
        Place::U3(_, _, _) => taking(),
        Place::U4(_, _, _) => taking(),
        Place::U5(_, _, _, _) => at(),
        Place::U6(_, _, _, _) => at(),
        Place::U7(_, _, _, _) => exchanging(),
        Place::U8(_, _, _) => at(),
        Place::U9(n, _, _, _) => on_block(n),
        Place::U10(_, _, _, _) => at(),
        Place::U11(_, _, b, _) => on_block(b),
        Place::U12(_, t, b, _) => on_indexed(b, t),
        Place::U13(_, t, b) => on_indexed(b, t),
        Place::U14(n, _) => on_block(n),
        Place::U15(n, _, _) => on_block(n),
        Place::V1 => at(),
        Place::V2(_) => at(),
        Place::V3(_, _) => at(),
        Place::V4(_, _, _) => exchanging(),
        Place::V5(_) => at(),
        Place::V6(_, b, _) => on_block(b),
        Place::V7(_, _, _, next) => on_block(next),
        Place::V8(_, _, _, _) => at(),
        Place::V9(_, _, _) => at(),
        Place::V10(h, b) => on_indexed(b, h),
        Place::V11(h, b) => on_indexed(b, h),
        Place::V12(h, b, _) => on_indexed(b, h),
        Place::V13(b, i, _) => on_slot(b, i),
        Place::V14(b, i, _) => on_slot(b, i),
        Place::V15(b, _) => on_block(b),
        Place::Len1 => at(),
        Place::Len2(_) => at(),
        Place::Len3(_, _) => at(),
        Place::Empty1 => at(),
        Place::Empty2(_) => at(),
        Place::Full1 => at(),
        Place::Close1 => at(),
        Place::IsClosed1 => at(),
    }
}

// The place at which a call begins. (There is no force_push here: its code is refusal 9.)
pub fn first_place(c: Call) -> Place
    ensures { result ≡ begin_of c }
{
    match c {
        Call::Push(item) => Place::U1(Pointer::None, item),
        Call::ForcePush(item) => Place::U1(Pointer::None, item),
        Call::Pop => Place::V1,
        Call::Len => Place::Len1,
        Call::IsEmpty => Place::Empty1,
        Call::IsFull => Place::Full1,
        Call::Close => Place::Close1,
        Call::IsClosed => Place::IsClosed1,
    }
}
