// What stands at the end of a run: a worker that is busy, what waits, what was lost.
use crate::notes::Notes;
use crate::stood;
use text_output::Text;
use text_system::System;
use unbounded_text_places::code::{Case, Coded};

// The slot in hand: of a push from U9 to U13, of a pop from V6 to V12.
fn tell_hand(text: &mut Text, s: Coded) {
    match s.case {
        Case::U9 | Case::U10 | Case::U11 | Case::U12 | Case::U13 => {
            in_hand(text, s.words[1], s.words[2]);
        }
        Case::V6 | Case::V7 | Case::V8 | Case::V9 | Case::V10 | Case::V11 | Case::V12 => {
            in_hand(text, s.words[0], s.words[1]);
        }
        _ => text.byte(b'\n'),
    }
}

fn in_hand(text: &mut Text, word: u64, block: u64) {
    text.form(
        ", slot # of block # in its hand\n",
        &[stood::offset(word), block],
    );
}

// busy: wN at PLACE
pub fn busy(system: &System, text: &mut Text, w: u64, s: Coded) {
    if s.case == Case::Idle {
        return;
    }
    text.form("busy: w# at ", &[w]);
    stood::name(text, s.case);
    tell_hand(text, s);
    text.settle(system);
}

// What contents tell through a buffer that any list fits.
fn waits(system: &System, text: &mut Text, items: &[u64], t: Result<u64, u64>, n: Notes) {
    match t {
        Ok(k) => text_explain::waiting::told(system, text, items, k),
        Err(_) => text.form(
            "waits: not told while a worker is busy; claims of tail ahead of head: #\n",
            &[n.tails.wrapping_sub(n.heads)],
        ),
    }
}

// What waits, and what was lost along the run.
pub fn rest(system: &System, text: &mut Text, items: &[u64], t: Result<u64, u64>, n: Notes) {
    waits(system, text, items, t, n);
    text.form(
        "exchanges lost: # because the words differed, # by the schedule\n",
        &[n.differed, n.failed],
    );
}
