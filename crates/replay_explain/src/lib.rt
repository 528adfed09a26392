// What the runs of all queues share that are told in plain words (replay --explain): what is asked, and what stands at the end.
#![tactic(auto)]

use replay_survey::pieces::Run;
use text_explain::words;
use text_output::Text;
use text_system::System;

// Coloured or not, and of all lines only those of this item's life.
#[derive(Clone, Copy)]
pub struct Explained {
    pub colours: bool,
    pub follows: Option<u64>,
}

// A machine that was run, at the end of its run.
pub trait Ended {
    // An entry was of the life of the item that is followed.
    fn is_met(&self) -> bool;

    fn workers(&self) -> u64;

    // The line of a worker, if it is busy; answers whether it is.
    fn busy(&self, system: &System, w: u64, text: &mut Text) -> bool;

    // What waits, and what was lost.
    fn rest(&self, system: &System, text: &mut Text);
}

// Of a run that was refused as a whole only that is told, and of a machine that was not made nothing more.
pub fn tell<E: Ended>(system: &System, how: Explained, run: Run, of: &E, text: &mut Text) {
    if run.whole {
        if run.refusal != 6 {
            words::refused(system, text, how.colours, run.place, run.refusal, 0);
        }
        return;
    }
    if let Some(item) = how.follows {
        words::unmet_if(text, !of.is_met(), item);
    }
    let mut is_any_busy = false;
    for w in 0..of.workers() {
        if of.busy(system, w, text) {
            is_any_busy = true;
        }
    }
    words::nobody_if(text, !is_any_busy);
    of.rest(system, text);
}
