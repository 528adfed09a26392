// What stands at the end of a run of the ring: who is busy, what waits, what was lost.
use crate::entries::Told;
use bounded_text_explain::acts;
use replay_bounded_explain_lines::notes;
use replay_bounded_machine::record_in;
use replay_explain::Ended;
use text_explain::waiting;
use text_output::Text;
use text_system::System;

impl Ended for Told<'_> {
    fn is_met(&self) -> bool {
        self.notes.is_met()
    }

    fn workers(&self) -> u64 {
        (self.lent.records.len() / bounded_slices::RECORD) as u64
    }

    // busy: wN at PLACE
    fn busy(&self, system: &System, w: u64, text: &mut Text) -> bool {
        let record = record_in(self.lent.records, w.wrapping_mul(16));
        let mark = self.lent.ring()[0];
        if record[0] < 11 {
            return false;
        }
        text.form("busy: w# at ", &[w]);
        acts::place(text, record[0]);
        if mark != 0 && notes::has_hand(bounded_codes::place_in(record[0], record[1], record[2])) {
            text.form(", slot # in its hand", &[record[1] % mark]);
        }
        text.byte(b'\n');
        text.settle(system);
        true
    }

    fn rest(&self, system: &System, text: &mut Text) {
        let mut list = [0u64; bounded_words::SLOTS];
        let told = bounded_host::fern_ring_contents(
            self.lent.head,
            self.lent.slots,
            self.lent.records,
            &mut list,
        );
        if told.refusal == 0 {
            waiting::told(system, text, &list, told.number);
        } else {
            let claims = self.notes.claims;
            let form = "waits: not told while a worker is busy; claims of tail ahead of head: #\n";
            text.form(form, &[claims.tail.wrapping_sub(claims.head)]);
        }
        let form = "exchanges lost: # because the words differed, # by the schedule\n";
        text.form(form, &[self.notes.differed, self.notes.failed]);
    }
}
