// What a machine holds, as text.
use text_output::Text;
use text_system::System;
use unbounded_machine::Machine;
use unbounded_places::{Answer, Ends, Place};
use unbounded_text_places::words::pointer;
use unbounded_words::BLOCKS;

// What a line says of a machine: handing this on is cheaper than the machine.
#[derive(Clone, Copy)]
pub struct Standing {
    pub ends: Ends,
    pub meter: u64,
    pub count: u64,
}

pub fn standing_of(m: &Machine) -> Standing {
    Standing {
        ends: m.ends,
        meter: m.meter,
        count: m.count,
    }
}

// Where a worker stands; idle without an answer where there is no such record.
pub fn place_of(m: &Machine, w: u64) -> Place {
    let i = w as usize;
    if i < queue_entries::WORKERS {
        return m.workers[i].place;
    }
    Place::Idle(Answer::Nothing)
}

// h=H hb=B t=T tb=B m=M
pub fn words(text: &mut Text, s: Standing) {
    text.form("h=# hb=", &[s.ends.head.0]);
    pointer(text, s.ends.front);
    text.form(" t=# tb=", &[s.ends.tail.0]);
    pointer(text, s.ends.back);
    text.form(" m=#", &[s.meter]);
}

// wN=PLACE; - where there is no such worker among so many
fn stands(text: &mut Text, w: u64, count: u64, s: Place) {
    text.form(" w#=", &[w]);
    if w < count {
        unbounded_text_places::words::place(text, s);
    } else {
        text.byte(b'-');
    }
}

// PLACE R h=H hb=B t=T tb=B m=M wN=PLACE, and the line's end
pub fn entry(text: &mut Text, place: u64, refusal: u64, w: u64, s: Standing, p: Place) {
    text.form("# # ", &[place, refusal]);
    words(text, s);
    stands(text, w, s.count, p);
    text.byte(b'\n');
}

// PLACE R h=H hb=B t=T tb=B m=M, and the line's end
pub fn report(text: &mut Text, place: u64, refusal: u64, s: Standing) {
    text.form("# # ", &[place, refusal]);
    words(text, s);
    text.byte(b'\n');
}

const SLOTS: usize = unbounded_words::SLOTS as usize;

// A line for each taken block: block B next=N (state,value) ..
pub fn blocks(system: &System, text: &mut Text, m: Machine) {
    for k in 0..BLOCKS {
        if m.blocks[k].free {
            continue;
        }
        text.form("block # next=", &[k as u64]);
        pointer(text, m.blocks[k].next);
        for i in 0..SLOTS {
            let s = m.slots[k * SLOTS + i];
            text.form(" (#,#)", &[s.state, s.value]);
            text.settle(system);
        }
        text.byte(b'\n');
    }
}

fn items(system: &System, text: &mut Text, items: &[u64], n: u64) {
    for (i, x) in items.iter().enumerate() {
        if n <= i as u64 {
            break;
        }
        text.byte(b' ');
        text.number(*x);
        text.settle(system);
    }
}

// contents x y ..., or: contents refused N
pub fn contents(system: &System, text: &mut Text, list: &[u64], t: Result<u64, u64>) {
    text.text("contents");
    match t {
        Ok(n) => {
            items(system, text, list, n);
            text.byte(b'\n');
        }
        Err(refusal) => text.form(" refused #\n", &[refusal]),
    }
}

// The code that a host's words of the other queues have for an answer, and its number; of a worker that is busy both are 0.
fn answer_of(p: Place) -> [u64; 2] {
    match p {
        Place::Idle(Answer::Nothing) => [0, 0],
        Place::Idle(Answer::Pushed) => [1, 0],
        Place::Idle(Answer::Closed(x)) => [7, x],
        Place::Idle(Answer::Popped(x)) => [9, x],
        Place::Idle(Answer::Empty) => [2, 0],
        Place::Idle(Answer::PopClosed) => [3, 0],
        Place::Idle(Answer::Len(n)) => [10, n],
        Place::Idle(Answer::Yes) => [4, 0],
        Place::Idle(Answer::No) => [5, 0],
        _ => [0, 0],
    }
}

// Of each worker what it answered last, by its code and its number.
pub fn answers(m: Machine) -> [u64; 128] {
    let mut list = [0u64; 128];
    for w in 0..queue_entries::WORKERS {
        let [code, number] = answer_of(m.workers[w].place);
        list[2 * w] = code;
        list[2 * w + 1] = number;
    }
    list
}
