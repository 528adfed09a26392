// What a run came to: counts over its entries.
use crate::Entered;
use bounded_machine::Tally;
use bounded_places::{Answer, Place};
use bounded_words::Claim;
use replay_survey::counts::{Counts, Kind};
use text_output::Text;

#[derive(Clone, Copy)]
pub struct Summary {
    counts: Counts,
    tally: Tally,
    // exchanges lost because the words differed, and by the schedule
    differed: u64,
    failed: u64,
}

// The number of an answer in the order of document 01.
fn number_of(stands: Place) -> Option<usize> {
    let Place::Idle(answer) = stands else {
        return None;
    };
    match answer {
        Answer::Nothing => None,
        Answer::Pushed => Some(0),
        Answer::Full(_) => Some(1),
        Answer::Closed(_) => Some(2),
        Answer::Displaced(_) => Some(3),
        Answer::Popped(_) => Some(4),
        Answer::Empty => Some(5),
        Answer::PopClosed => Some(6),
        Answer::Len(_) => Some(7),
        Answer::Yes => Some(8),
        Answer::No => Some(9),
    }
}

// An act that goes back to an earlier place of its call.
fn is_retry(stood: Place, stands: Place) -> bool {
    bounded_causes::goes_back(
        bounded_causes::stand_of(stood),
        bounded_causes::stand_of(stands),
    )
}

impl Summary {
    // Before the first entry; the whole may be refused.
    pub fn new(refused: bool) -> Summary {
        Summary {
            counts: Counts::new(refused),
            tally: Tally {
                tail: Claim(0),
                head: Claim(0),
                reads: 0,
            },
            differed: 0,
            failed: 0,
        }
    }

    pub fn after(&mut self, e: &Entered) {
        self.counts.entered(e.kind());
        if e.kind() == Kind::Acted {
            let stood = e.stood();
            let stands = e.stands();
            self.counts
                .acted(is_retry(stood, stands), number_of(stands));
            self.tally = bounded_stock::tally(self.tally, stood, stands);
            self.differed = self
                .differed
                .wrapping_add(e.after[3].wrapping_sub(e.before[3]));
            self.failed = self
                .failed
                .wrapping_add(e.after[4].wrapping_sub(e.before[4]));
        }
    }

    // What follows an entry's line where it is asked.
    pub fn tell_stock(&self, text: &mut Text) {
        text.form(" stock=#", &[bounded_stock::stock(self.tally)]);
    }

    pub fn tell_losses(&self, text: &mut Text) {
        text.form(
            "lost differed=# schedule=#\n",
            &[self.differed, self.failed],
        );
    }

    pub fn tell(&self, text: &mut Text) {
        self.counts.tell(text);
        let t = self.tally;
        text.form(
            "claims tail=# head=# stock=#\n",
            &[t.tail.0, t.head.0, bounded_stock::stock(t)],
        );
    }
}
