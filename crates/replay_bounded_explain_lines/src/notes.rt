// What is noted along a run of the ring to tell why a worker tries again, and whose life an entry belongs to: claims counted at each end, how many there were when a worker
// last looked, whether another had a slot in hand then; which workers and slots have the item that is followed.
use bounded_causes::Causes;
use bounded_places::{Answer, Place};
use bounded_text_explain::acts::{Claims, Entered};
use replay_bounded_window::Window;
use text_output::Text;
use text_system::System;

const WORKERS: usize = 64;

const SLOTS: usize = 1024;

// The words of a record.
const RECORD: usize = 5;

// Of a worker.
#[derive(Clone, Copy)]
struct OfWorker {
    // claims at its own end when it loaded or found a word
    own: u64,
    // claims at the other end, and whether another had a slot in hand, when it loaded a stamp
    other: u64,
    hand: bool,
    followed: bool,
}

#[derive(Drop)]
pub struct Notes {
    pub claims: Claims,
    // marks set in tail
    marks: u64,
    pub differed: u64,
    pub failed: u64,
    window: Window,
    workers: [OfWorker; WORKERS],
    // of each whether it has the item that is followed
    slots: [bool; SLOTS],
    // it was followed at all
    met: bool,
}

// ---- places

pub fn stood(e: &Entered) -> Place {
    bounded_codes::place_in(e.before[0], e.before[1], e.before[2])
}

pub fn stands(e: &Entered) -> Place {
    bounded_codes::place_in(e.after[0], e.after[1], e.after[2])
}

fn is_stamp_load(p: Place) -> bool {
    matches!(p, Place::P2(..) | Place::O2(_))
}

fn is_pop(p: Place) -> bool {
    matches!(
        p,
        Place::O1 | Place::O2(_) | Place::O3(_) | Place::O4(_) | Place::O5(..) | Place::O6(_)
    )
}

fn is_first(p: Place) -> bool {
    matches!(p, Place::P1(..) | Place::O1 | Place::Len1)
}

// From one place to the other goes back.
fn is_back(from: Place, to: Place) -> bool {
    match from {
        Place::P3(..) => matches!(to, Place::P2(..)),
        Place::O3(_) => matches!(to, Place::O2(_)),
        Place::P2(..)
        | Place::P6(..)
        | Place::F6(..)
        | Place::O2(_)
        | Place::O6(_)
        | Place::Len3(..) => is_first(to),
        _ => false,
    }
}

// The worker has loaded or found a word of its own end.
fn is_given(from: Place, to: Place) -> bool {
    match from {
        Place::P1(..) | Place::P3(..) => matches!(to, Place::P2(..)),
        Place::O1 | Place::O3(_) => matches!(to, Place::O2(_)),
        Place::Len1 => matches!(to, Place::Len2(_)),
        _ => false,
    }
}

pub fn is_tail_claim(from: Place, to: Place) -> bool {
    match from {
        Place::P3(..) => matches!(to, Place::P4(..)),
        Place::F7(..) => true,
        _ => false,
    }
}

pub fn is_head_claim(from: Place, to: Place) -> bool {
    match from {
        Place::O3(_) => matches!(to, Place::O4(_)),
        Place::F6(..) => matches!(to, Place::F7(..)),
        _ => false,
    }
}

pub fn has_hand(p: Place) -> bool {
    match p {
        Place::P4(..) | Place::P5(_) => true,
        Place::F7(..) | Place::F8(..) | Place::F9(..) => true,
        Place::O4(_) | Place::O5(..) => true,
        _ => false,
    }
}

fn another_has_hand(records: &[u64], w: u64) -> bool {
    for i in 0..records.len() / RECORD {
        let at = i * RECORD;
        if i as u64 != w
            && has_hand(bounded_codes::place_in(records[at], records[at + 1], records[at + 2]))
        {
            return true;
        }
    }
    false
}

// ---- an item's life

fn slot_in(e: &Entered) -> usize {
    let mark = e.ring[0];
    if mark == 0 {
        return 0;
    }
    (e.before[1] % mark) as usize
}

fn is_begin(e: &Entered) -> bool {
    e.first % 16 < 8
}

// An act that writes a slot's value.
fn is_write(e: &Entered) -> bool {
    !is_begin(e) && matches!(stood(e), Place::P4(..) | Place::F8(..))
}

fn up_if(n: &mut u64, it: bool) {
    *n = n.wrapping_add(u64::from(it));
}

impl Notes {
    pub fn new() -> Notes {
        Notes {
            claims: Claims { tail: 0, head: 0 },
            marks: 0,
            differed: 0,
            failed: 0,
            window: Window::new(),
            workers: [OfWorker {
                own: 0,
                other: 0,
                hand: false,
                followed: false,
            }; WORKERS],
            slots: [false; SLOTS],
            met: false,
        }
    }

    pub fn is_met(&self) -> bool {
        self.met
    }

    // How often the end of a call moved that stands at this place, and the other end.
    fn own_of(&self, p: Place) -> u64 {
        if is_pop(p) {
            self.claims.head
        } else {
            self.claims.tail.wrapping_add(self.marks)
        }
    }

    fn other_of(&self, p: Place) -> u64 {
        if is_pop(p) {
            self.claims.tail
        } else {
            self.claims.head
        }
    }

    fn causes_of(&self, of: OfWorker, e: &Entered) -> Option<Causes> {
        let stood = stood(e);
        if !is_back(stood, stands(e)) {
            return None;
        }
        let own = of.own != self.own_of(stood);
        if matches!(stood, Place::Len3(..)) {
            return Some(Causes {
                schedule: false,
                own,
                other: false,
                hand: false,
            });
        }
        Some(Causes {
            schedule: e.before[4] != e.after[4],
            own,
            other: of.other != self.other_of(stood),
            hand: of.hand,
        })
    }

    // Why the act goes back, where it does; what it has looked at is noted.
    pub fn noted(&mut self, records: &[u64], e: &Entered) -> Option<Causes> {
        let w = e.first / 16;
        if w >= WORKERS as u64 {
            return None;
        }
        let stood = stood(e);
        let mut of = self.workers[w as usize];
        if is_stamp_load(stood) {
            of.other = self.other_of(stood);
            of.hand = another_has_hand(records, w);
        }
        let causes = self.causes_of(of, e);
        if is_given(stood, stands(e)) {
            of.own = self.own_of(stood);
        }
        self.workers[w as usize] = of;
        causes
    }

    // Behind the line of an entry that was accepted: whether it left the window of sixteen bits.
    pub fn tell_window(&mut self, system: &System, e: &Entered, text: &mut Text) {
        self.window
            .after(e.narrow, e.ring, e.first, 0, e.before, e.after);
        self.window.tell(system, text, e.place);
    }

    // After an act.
    pub fn counted(&mut self, e: &Entered) {
        let stood = stood(e);
        let stands = stands(e);
        up_if(&mut self.claims.tail, is_tail_claim(stood, stands));
        up_if(&mut self.claims.head, is_head_claim(stood, stands));
        up_if(
            &mut self.marks,
            matches!((stood, stands), (Place::Close1, Place::Idle(Answer::Yes))),
        );
        up_if(&mut self.differed, e.before[3] != e.after[3]);
        up_if(&mut self.failed, e.before[4] != e.after[4]);
    }

    // The entry begins the life of an item, or claims it to hand it out.
    fn takes_up(&self, e: &Entered, item: u64) -> bool {
        if is_begin(e) {
            return e.first % 16 < 2 && e.second == item;
        }
        let i = slot_in(e);
        is_head_claim(stood(e), stands(e)) && i < SLOTS && self.slots[i]
    }

    // Whether an entry that was accepted belongs to the life of this item.
    pub fn is_of(&mut self, e: &Entered, item: u64) -> bool {
        let w = e.first / 16;
        if w >= WORKERS as u64 {
            return false;
        }
        let taken = self.takes_up(e, item);
        let it = taken || self.workers[w as usize].followed;
        self.met = self.met || taken;
        let i = slot_in(e);
        if is_write(e) && i < SLOTS {
            self.slots[i] = e.before[2] == item;
        }
        self.workers[w as usize].followed = it && !matches!(stands(e), Place::Idle(_));
        it
    }
}
