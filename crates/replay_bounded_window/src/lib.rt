// Whether a run of sixteen bits keeps the window (`InWindow` of bounded_demands; docs/PROMISES.md#sixteen-bit-stamps), counted along it.
#![tactic(auto)]

use bounded_machine::Tally;
use bounded_words::Claim;
use text_output::Text;
use text_system::System;

// No record of a sixteen-bit machine is lent.
const WORKERS: usize = 16;

// A word of an end that a worker holds: the claims at tail and at head when it got it.
#[derive(Clone, Copy)]
struct Held {
    tails: u64,
    heads: u64,
}

#[derive(Clone, Copy)]
pub struct Window {
    // the claims so far
    claims: Tally,
    held: [Option<Held>; WORKERS],
    left: bool,
    // it was left by the latest entry
    leaves: bool,
}

// "a turn less two capacities", a turn being capacity × 65,536 / lap claims; of no ring no window is left
fn length_of(capacity: u64, lap: u64) -> u64 {
    if lap == 0 || 1024 < capacity {
        return u64::MAX;
    }
    (capacity * 65536 / lap).wrapping_sub(capacity.wrapping_add(capacity))
}

// How far in its call a worker stands: from the second place on it holds a word of an end, which the act that led there gave it.
fn far_of(r: [u64; 5]) -> u64 {
    bounded_causes::stand_of(bounded_codes::place_in(r[0], r[1], r[2])).far
}

impl Window {
    // Before the first entry.
    pub fn new() -> Window {
        Window {
            claims: Tally {
                tail: Claim(0),
                head: Claim(0),
                reads: 0,
            },
            held: [None; WORKERS],
            left: false,
            leaves: false,
        }
    }

    pub fn is_left(&self) -> bool {
        self.left
    }

    // From the second place of a call on its worker holds a word.
    fn hold(&mut self, w: u64, far: u64) {
        if w >= WORKERS as u64 {
            return;
        }
        if far < 2 {
            self.held[w as usize] = None;
        }
        if far == 2 {
            self.held[w as usize] = Some(Held {
                tails: self.claims.tail.0,
                heads: self.claims.head.0,
            });
        }
    }

    // Whether a worker holds a word for so many claims at an end, or more.
    fn is_any_out(&self, length: u64) -> bool {
        let tail = self.claims.tail.0;
        let head = self.claims.head.0;
        for held in &self.held {
            if let Some(word) = held {
                if length <= tail.wrapping_sub(word.tails)
                    || length <= head.wrapping_sub(word.heads)
                {
                    return true;
                }
            }
        }
        false
    }

    // One more act of worker w, from record to record.
    fn act(&mut self, length: u64, w: u64, from: [u64; 5], to: [u64; 5]) {
        let stood = bounded_codes::place_in(from[0], from[1], from[2]);
        let stands = bounded_codes::place_in(to[0], to[1], to[2]);
        self.claims = bounded_stock::tally(self.claims, stood, stands);
        self.hold(w, far_of(to));
        self.leaves = !self.left && self.is_any_out(length);
        self.left = self.left || self.leaves;
    }

    // An entry of this first word, refused by this number or by none, on a ring with these words and of sixteen bits or not, which led its worker from one record to
    // the other. Words of 64 bits do not come round.
    pub fn after(
        &mut self,
        narrow: bool,
        ring: [u64; 8],
        first: u64,
        refusal: u64,
        from: [u64; 5],
        to: [u64; 5],
    ) {
        if !narrow {
            return;
        }
        self.leaves = false;
        if refusal == 0 && first % 16 >= 8 {
            self.act(length_of(ring[2], ring[1]), first / 16, from, to);
        }
    }

    // The line behind that of the entry at this place, if that left the window.
    pub fn tell(&self, system: &System, text: &mut Text, place: u64) {
        if self.leaves {
            text.form("left the window at entry #\n", &[place]);
            text.settle(system);
        }
    }
}
