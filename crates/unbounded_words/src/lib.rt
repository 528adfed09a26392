// Index words, pointers to blocks and the pool's sizes: the constants of src/unbounded.rs and what it computes with them.
#![tactic(auto)]

ghost use Rattle.std.specs.Prelude.{◌≡◌};
ghost use Rattle.unbounded_words.specs.Words.{sizes, offset_of, past_slots, last_slot, marked_of, unmarked_of, with_mark, later, same_position, same_block, minus, settled, behind, count_of, none_of, number_of};

// A word of head.index or of tail.index: a position in all bits but the lowest, and the mark.
// "If set in head, indicates that the block is not the last one. If set in tail, indicates that the queue is closed."
#[derive(Clone, Copy, PartialEq, Eq)]
pub struct Index(pub u64);

// A block of the pool by its number, or no block.
#[derive(Clone, Copy)]
pub enum Pointer {
    None,
    To(u64),
}

// "Each block covers one lap of indices."
pub const LAP: u64 = 32;

// The slots of a block: BLOCK_CAP.
pub const SLOTS: u64 = 31;

// The blocks of the pool, and all their slots.
pub const BLOCKS: usize = 64;

pub const POOL: usize = 1984;

// `(w >> SHIFT) % LAP`
pub fn offset(w: Index) -> u64
    ensures { result ≡ offset_of sizes w }
{
    w.0 / 2 % LAP
}

// `offset == BLOCK_CAP`
pub fn past_slots(w: Index) -> bool
    ensures { result ≡ past_slots sizes w }
{
    offset(w) == SLOTS
}

// `offset + 1 == BLOCK_CAP`
pub fn last_slot(w: Index) -> bool
    ensures { result ≡ last_slot sizes w }
{
    offset(w) + 1 == SLOTS
}

// `w & MARK_BIT != 0`
pub fn marked(w: Index) -> bool
    ensures { result ≡ marked_of w }
{
    w.0 % 2 == 1
}

// `w & !MARK_BIT`
pub fn unmarked(w: Index) -> Index
    ensures { result ≡ unmarked_of w }
{
    Index(w.0 - w.0 % 2)
}

// `w | MARK_BIT`
pub fn with_mark(w: Index) -> Index
    ensures { result ≡ with_mark w }
{
    Index(w.0 - w.0 % 2 + 1)
}

// `w + (1 << SHIFT)`; sums wrap.
pub fn next(w: Index) -> Index
    ensures { result ≡ later w }
{
    Index(w.0.wrapping_add(2))
}

// `a >> SHIFT == b >> SHIFT`
pub fn same_position(a: Index, b: Index) -> bool
    ensures { result ≡ same_position a b }
{
    a.0 / 2 == b.0 / 2
}

// `(a >> SHIFT) / LAP == (b >> SHIFT) / LAP`
pub fn same_block(a: Index, b: Index) -> bool
    ensures { result ≡ same_block sizes a b }
{
    a.0 / 2 / LAP == b.0 / 2 / LAP
}

fn less(a: u64, b: u64) -> u64
    ensures { result ≡ minus a b }
{
    a.wrapping_sub(b)
}

// "Erase the lower bits." and "Fix up indices if they fall onto block ends."
fn settle(w: Index) -> Index
    ensures { result ≡ settled sizes w }
{
    let u = unmarked(w);
    if past_slots(u) { next(u) } else { u }
}

// "Return the difference minus the number of blocks between tail and head.", of the positions from the start of head's block on.
fn between(t: u64, h: u64) -> u64
    ensures { result ≡ behind sizes t h }
{
    less(less(t, h), t / LAP)
}

// What `len` makes of its two words.
pub fn count(t: Index, h: Index) -> u64
    ensures { result ≡ count_of sizes t h }
{
    let tail = settle(t);
    let head = settle(h);
    let start = head.0 / 2 / LAP * LAP * 2;
    between(less(tail.0, start) / 2, less(head.0, start) / 2)
}

pub fn is_none(p: Pointer) -> bool
    ensures { result ≡ none_of p }
{
    matches!(p, Pointer::None)
}

// The block's number; that of no block for none.
pub fn number(p: Pointer) -> u64
    ensures { result ≡ number_of sizes p }
{
    match p {
        Pointer::None => BLOCKS as u64,
        Pointer::To(k) => k,
    }
}
