// A ring, made by the first pair of numbers and run entry by entry.
use replay_bounded_lines::Along;
use replay_bounded_machine::{Lent, ROOM};
use replay_input::source::Reading;
use replay_options::Options;
use replay_survey::pieces::Run;
use replay_survey::runs::Runner;
use replay_survey::{Played, Whole, answers, runs};
use std::fs::File;
use text_output::Text;
use text_system::System;

// What is asked, a ring, and what is counted along its run.
#[derive(Drop)]
struct Replay<'a> {
    asked: Options,
    lent: Lent<'a>,
    along: Along,
}

// contents x y ..., through a buffer that any list fits
fn contents(system: &System, text: &mut Text, head: &[u64], slots: &[u64], records: &[u64]) {
    let mut items = [0u64; bounded_words::SLOTS];
    let t = bounded_host::fern_ring_contents(head, slots, records, &mut items);
    bounded_text_codes::told(system, text, "contents", &items, t.refusal, t.number);
}

impl Runner for Replay<'_> {
    // All at once where no line of theirs is asked and no count.
    fn entries(&mut self, system: &System, run: Run, list: &[u64], text: &mut Text) -> Run {
        let bits = replay_bounded_machine::width(self.asked.narrow);
        if self.asked.quiet && !self.asked.summary && self.lent.is_kept() {
            return self.lent.run(run, bits, list);
        }
        let lent = &mut self.lent;
        crate::entries::run(system, run, bits, &mut self.along, lent, list, text)
    }

    fn tell(&self, system: &System, run: Run, text: &mut Text) {
        let ring = self.lent.ring();
        if run.is_reported(self.asked.quiet) {
            replay_bounded_lines::report(text, run.place, run.refusal, ring);
        }
        bounded_text_codes::slots(system, text, self.lent.slots, ring[2]);
        contents(
            system,
            text,
            self.lent.head,
            self.lent.slots,
            self.lent.records,
        );
        self.along.tell(text);
    }

    fn answers(&self) -> [u64; answers::WORDS] {
        answers::in_records(self.lent.records)
    }
}

// A schedule, read piece by piece and run to its end or to its first refusal.
pub fn play(
    system: &System,
    o: Options,
    file: &File,
    begun: Reading,
    whole: Whole,
    text: &mut Text,
) -> Played {
    let mut head = [0u64; bounded_slices::HEAD];
    let mut slots = [0u64; bounded_slices::SLOTS];
    let mut records = [0u64; ROOM];
    let used = replay_bounded_machine::records_of(o.lent, whole.workers) * bounded_slices::RECORD;
    let mut lent = Lent {
        head: &mut head,
        slots: &mut slots,
        records: &mut records[..used],
    };
    let refusal = lent.make(whole.capacity, o.edition);
    text.form("made #\n", &[refusal]);
    let run = Run::begun(lent.is_broken(), whole);
    let along = Along::new(o, run.refusal != 0, lent.ring()[2]);
    let mut replay = Replay {
        asked: o,
        lent,
        along,
    };
    runs::play(system, file, o.many, begun, run, &mut replay, text)
}
