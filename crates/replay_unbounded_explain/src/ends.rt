// What stands at the end of a run: who is busy, what waits, what was lost.
use crate::{Told, seen};
use replay_explain::Ended;
use text_output::Text;
use text_system::System;
use unbounded_text_explain::ends;
use unbounded_text_places::code::Case;

impl Ended for Told {
    fn is_met(&self) -> bool {
        self.notes.met
    }

    fn workers(&self) -> u64 {
        queue_entries::WORKERS as u64
    }

    fn busy(&self, system: &System, w: u64, text: &mut Text) -> bool {
        let stood = seen(&self.machine, w).stood;
        ends::busy(system, text, w, stood);
        stood.case != Case::Idle
    }

    fn rest(&self, system: &System, text: &mut Text) {
        let mut items = [0u64; unbounded_words::POOL];
        let t = unbounded::contents(self.machine, &mut items);
        ends::rest(system, text, &items, t, self.notes);
    }
}
