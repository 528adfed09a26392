// The entries of a schedule, run on the words of a ring and its records, each with its line.
use bounded_causes::Causes;
use bounded_text_explain::acts::Entered;
use bounded_words::Width;
use replay_bounded_explain_lines::lines;
use replay_bounded_explain_lines::notes::Notes;
use replay_bounded_machine::{Lent, record_in};
use replay_explain::Explained;
use text_explain::words;
use text_output::Text;
use text_system::System;

// What is asked, a ring, and what is noted along its run.
#[derive(Drop)]
pub struct Told<'a> {
    pub how: Explained,
    // head, tail and stamps have sixteen bits, and not 64
    pub narrow: bool,
    pub lent: Lent<'a>,
    pub notes: Notes,
}

// The entry of two words, on any words; what is broken is refused.
fn turn(
    bits: Width,
    head: &mut [u64],
    slots: &mut [u64],
    records: &mut [u64],
    first: u64,
    second: u64,
) -> u64 {
    if bounded_slices::broken(head, slots, records) {
        return 6;
    }
    bounded_rows::turn(bits, head, slots, records, first, second)
}

fn turn_of(bits: Width, lent: &mut Lent, first: u64, second: u64) -> u64 {
    turn(bits, lent.head, lent.slots, lent.records, first, second)
}

// Ring and records are lent as `&mut` too: the borrow checker has no rule for a field lent as `&` beside one lent as `&mut` behind the same reference.
fn noted(notes: &mut Notes, lent: &mut Lent, e: &Entered) -> Option<Causes> {
    notes.noted(lent.records, e)
}

impl Told<'_> {
    // An entry that was accepted.
    fn accepted(&mut self, system: &System, e: &Entered, text: &mut Text) {
        let shown = match self.how.follows {
            Some(item) => self.notes.is_of(e, item),
            None => true,
        };
        let is_act = e.first % 16 >= 8;
        let causes = if is_act {
            let lent = &mut self.lent;
            noted(&mut self.notes, lent, e)
        } else {
            None
        };
        if shown {
            lines::told(system, self.how, text, e, &self.notes, causes);
        }
        if is_act {
            self.notes.tell_window(system, e, text);
            self.notes.counted(e);
        }
    }

    // Answers its refusal, or 0.
    pub fn step(
        &mut self,
        system: &System,
        place: u64,
        first: u64,
        second: u64,
        text: &mut Text,
    ) -> u64 {
        let ring_before = self.lent.ring();
        let before = record_in(self.lent.records, first);
        let bits = replay_bounded_machine::width(self.narrow);
        let refusal = turn_of(bits, &mut self.lent, first, second);
        if refusal != 0 {
            words::refused(system, text, self.how.colours, place, refusal, first / 16);
            return refusal;
        }
        let e = Entered {
            place,
            first,
            second,
            narrow: self.narrow,
            ring_before,
            ring: self.lent.ring(),
            before,
            after: record_in(self.lent.records, first),
        };
        self.accepted(system, &e, text);
        0
    }
}
