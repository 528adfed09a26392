// How a walk over any queue's machine is told: its numbers, and its bytes in a lent buffer. What it lists is said in specs/Walks.antt.
#![tactic(auto)]

ghost use Rattle.std.specs.Prelude.{◌≡◌, [], ◌∷◌, ◌+◌, ◌^◌, ◌<◌, ◌≤◌, set, take};
ghost use Rattle.std.proofs.lemmas.List.Edits.{sets};
ghost use Rattle.queue_walks.specs.Walks.{depth_most};
ghost use Rattle.queue_walks.specs.Listed.{bytes_of, counted, Room};

// The most workers of a walk, and the most acts of a sequence.
pub const WALKERS: u64 = 3;

pub const DEPTH: usize = 12;

// How many sequences, in how many bytes.
#[derive(Clone, Copy)]
pub struct Walked {
    pub sequences: u64,
    pub bytes: usize,
}

// One byte, where the buffer has a place for it.
fn store(out: &mut [u8], at: usize, byte: u8)
    ensures { out.new ≡ set out.old at byte }
{
    if at < out.len() {
        out[at] = byte;
    }
}

// A sequence's bytes, the first n acts of a path, from there on as far as the buffer goes. A walk that only counts is past its end from the
// second sequence on.
fn put(out: &mut [u8], at: usize, path: [u8; DEPTH], n: usize)
    requires few { n ≤ depth_most }
    requires room { at + 1 + n < 2 ^ 64 }
    ensures { out.new ≡ sets out.old at (bytes_of (take n path ∷ [])) }
{
    if out.len() <= at {
        return;
    }
    store(out, at, n as u8);
    for i in 0..n {
        store(out, at + 1 + i, path[i]);
    }
}

// One sequence more, the first n acts of a path, as far as the buffer goes.
pub fn list(out: &mut [u8], told: Walked, path: [u8; DEPTH], n: usize) -> Walked
    requires few { n ≤ depth_most }
    requires room { Room told (take n path ∷ []) }
    ensures answer { result ≡ counted told (take n path ∷ []) }
    ensures lent { out.new ≡ sets out.old told.bytes (bytes_of (take n path ∷ [])) }
{
    put(out, told.bytes, path, n);
    Walked {
        sequences: told.sequences + 1,
        bytes: told.bytes + 1 + n,
    }
}
