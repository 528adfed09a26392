// The words of a ring: document 01, "The words".
#![tactic(auto)]

ghost use Rattle.std.specs.Prelude.{◌≡◌, ◌%◌, ◌≤◌};
ghost use Rattle.bounded_words.specs.Limits.{slots_most};
ghost use Rattle.bounded_words.specs.Words.{Fair, Indexed, stamp, width_of, lap_of, mark_of, marked_of, next_of, plus, minus, unmarked_of, with_mark, same, one_past, lap_behind, lap_behind_one_past};

// A word of head, of tail or of a slot: a lap, the mark and an index in one number.
#[derive(Clone, Copy, PartialEq, Eq)]
pub struct Stamp(pub u64);

// The number of a claim: the k-th move of tail, or of head, since the machine was made.
#[derive(Clone, Copy, PartialEq, Eq)]
pub struct Claim(pub u64);

// How wide the words of a ring are. It is no part of a machine: which face is called says it.
#[derive(Clone, Copy, PartialEq, Eq)]
pub enum Width {
    Sixteen,
    SixtyFour,
}

// What a ring keeps unchanged from its making on.
#[derive(Clone, Copy)]
pub struct Fixed {
    // If this bit is set in tail, the ring is closed.
    pub mark: u64,
    // One lap: 2 * mark.
    pub lap: u64,
    pub capacity: u64,
    // 1: the source's rules. 2: a close holds (place F7).
    pub edition: u64,
}

// The most slots, and the last edition.
pub const SLOTS: usize = 1024;

pub const EDITIONS: u64 = 2;

// How many words there are of sixteen bits.
pub const NARROW: u64 = 65536;

// "smallest power of two not below capacity + 1"
pub fn mark_of(capacity: u64) -> u64
    requires { capacity ≤ slots_most }
    ensures { result ≡ mark_of capacity }
{
    let least = capacity + 1;
    1 << (64 - (least - 1).leading_zeros())
}

// "its part below mark"
pub fn index(f: Fixed, w: Stamp) -> u64
    requires { Fair f }
    ensures { Indexed f w result }
{
    w.0 & (f.mark - 1)
}

// The word of this width that a sum leaves.
fn cut(bits: Width, sum: u64) -> Stamp
    ensures { result ≡ stamp (sum % width_of bits) }
{
    match bits {
        Width::Sixteen => Stamp(sum % NARROW),
        Width::SixtyFour => Stamp(sum),
    }
}

// "a lap is added and taken away modulo 2 to the power 64", or modulo 65,536
pub fn later(bits: Width, w: Stamp, by: u64) -> Stamp
    ensures { result ≡ plus bits w by }
{
    cut(bits, w.0.wrapping_add(by))
}

pub fn earlier(bits: Width, w: Stamp, by: u64) -> Stamp
    ensures { result ≡ minus bits w by }
{
    cut(bits, w.0.wrapping_sub(by))
}

pub fn next(bits: Width, f: Fixed, w: Stamp) -> Stamp
    requires { Fair f }
    ensures { result ≡ next_of bits f w }
{
    let i = index(f, w);
    if i + 1 < f.capacity {
        later(bits, w, 1)
    } else {
        later(bits, Stamp(w.0 - i), f.lap)
    }
}

pub fn marked(f: Fixed, w: Stamp) -> bool
    requires { Fair f }
    ensures { result ≡ marked_of f w }
{
    w.0 & f.mark != 0
}

// `w & !mark`
pub fn unmarked(f: Fixed, w: Stamp) -> Stamp
    requires { Fair f }
    ensures { result ≡ unmarked_of f w }
{
    if marked(f, w) { Stamp(w.0 - f.mark) } else { w }
}

// `w | mark`
pub fn with_mark(bits: Width, f: Fixed, w: Stamp) -> Stamp
    requires { Fair f }
    ensures { result ≡ with_mark bits f w }
{
    if marked(f, w) {
        w
    } else {
        later(bits, w, f.mark)
    }
}

// s = h + 1
#[tactic(auto, unfolding(crate::specs::Words::one_past, crate::specs::Words::same))]
pub fn one_past(bits: Width, s: Stamp, h: Stamp) -> bool
    ensures { result ≡ one_past bits s h }
{
    s == later(bits, h, 1)
}

// h + lap = t
#[tactic(auto, unfolding(crate::specs::Words::lap_behind, crate::specs::Words::same))]
pub fn lap_behind(bits: Width, f: Fixed, h: Stamp, t: Stamp) -> bool
    ensures { result ≡ lap_behind bits f h t }
{
    later(bits, h, f.lap) == t
}

// s + lap = t + 1
#[tactic(auto, unfolding(crate::specs::Words::lap_behind_one_past))]
pub fn lap_behind_one_past(bits: Width, f: Fixed, s: Stamp, t: Stamp) -> bool
    ensures { result ≡ lap_behind_one_past bits f s t }
{
    lap_behind(bits, f, s, later(bits, t, 1))
}

// The unmarked part of t is h.
#[tactic(auto, unfolding(crate::specs::Words::same))]
pub fn unmarked_is(f: Fixed, t: Stamp, h: Stamp) -> bool
    requires { Fair f }
    ensures { result ≡ same (unmarked_of f t) h }
{
    unmarked(f, t) == h
}

// h + lap is the unmarked part of t.
pub fn lap_behind_unmarked(bits: Width, f: Fixed, h: Stamp, t: Stamp) -> bool
    requires { Fair f }
    ensures { result ≡ lap_behind bits f h (unmarked_of f t) }
{
    lap_behind(bits, f, h, unmarked(f, t))
}
