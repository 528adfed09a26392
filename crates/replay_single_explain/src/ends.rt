// What stands at the end of a run: who is busy, what waits, what was lost.
use crate::{Told, seen};
use replay_explain::Ended;
use single_text::code::Case;
use single_text_explain::acts;
use text_explain::waiting;
use text_output::Text;
use text_system::System;

impl Ended for Told {
    fn is_met(&self) -> bool {
        self.notes.met
    }

    fn workers(&self) -> u64 {
        queue_entries::WORKERS as u64
    }

    // busy: wN at PLACE
    fn busy(&self, system: &System, w: u64, text: &mut Text) -> bool {
        let case = seen(self.machine, w).stood.case;
        if case == Case::Idle {
            return false;
        }
        text.form("busy: w# at ", &[w]);
        acts::name(text, case);
        let has_hand = matches!(
            case,
            Case::A2 | Case::A3 | Case::B2 | Case::B3 | Case::B4 | Case::B5 | Case::C2 | Case::C3
        );
        text.text(if has_hand {
            ", the slot in its hand\n"
        } else {
            "\n"
        });
        text.settle(system);
        true
    }

    // What contents tell through a buffer of one item.
    fn rest(&self, system: &System, text: &mut Text) {
        let mut item = [0u64; 1];
        match single::contents(self.machine, &mut item) {
            Ok(k) => waiting::told(system, text, &item, k),
            Err(_) => {
                let form =
                    "waits: not told while a worker is busy; claims of pushes ahead of pops: #\n";
                text.form(form, &[self.notes.puts.wrapping_sub(self.notes.takes)]);
            }
        }
        text.form(
            "exchanges lost: # because the words differed\n",
            &[self.notes.lost],
        );
    }
}
