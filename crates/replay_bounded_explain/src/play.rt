// A ring, made by the first pair of numbers, run entry by entry and told in plain words.
use crate::entries::Told;
use replay_bounded_explain_lines::lines;
use replay_bounded_explain_lines::notes::Notes;
use replay_bounded_machine::{Lent, ROOM};
use replay_explain::Explained;
use replay_input::source::Reading;
use replay_options::Options;
use replay_survey::pieces::Run;
use replay_survey::runs::Runner;
use replay_survey::{Played, Whole, answers, runs};
use std::fs::File;
use text_output::Text;
use text_system::System;

impl Runner for Told<'_> {
    fn entries(&mut self, system: &System, run: Run, list: &[u64], text: &mut Text) -> Run {
        runs::steps(
            run,
            list,
            |place, first, second| self.step(system, place, first, second, text),
        )
    }

    fn tell(&self, system: &System, run: Run, text: &mut Text) {
        replay_explain::tell(system, self.how, run, self, text);
    }

    fn answers(&self) -> [u64; answers::WORDS] {
        answers::in_records(self.lent.records)
    }
}

// A schedule, read piece by piece and run to its end or to its first refusal.
pub fn play(
    system: &System,
    o: Options,
    how: Explained,
    file: &File,
    begun: Reading,
    whole: Whole,
    text: &mut Text,
) -> Played {
    let mut head = [0u64; bounded_slices::HEAD];
    let mut slots = [0u64; bounded_slices::SLOTS];
    let mut records = [0u64; ROOM];
    let used = replay_bounded_machine::records_of(o.lent, whole.workers) * bounded_slices::RECORD;
    let mut lent = Lent {
        head: &mut head,
        slots: &mut slots,
        records: &mut records[..used],
    };
    let refusal = lent.make(whole.capacity, o.edition);
    let asked = [whole.capacity, whole.workers, o.edition];
    lines::made(system, text, how.colours, refusal, asked);
    let mut told = Told {
        how,
        narrow: o.narrow,
        lent,
        notes: Notes::new(),
    };
    let run = Run::begun(refusal != 0, whole);
    runs::play(system, file, o.many, begun, run, &mut told, text)
}
