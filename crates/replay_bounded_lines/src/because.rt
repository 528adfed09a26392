// Why acts go back to an earlier place, told along a run: document 02's item 9.
use crate::Entered;
use bounded_causes::{Causes, Watches};
use bounded_places::Loss;
use replay_survey::counts::Kind;
use text_output::Text;

const NAMES: [&str; 5] = ["schedule", "own-end", "other-end", "hand", "none"];

#[derive(Clone, Copy)]
pub struct Because {
    watches: Watches,
    // the entry just run is an act that goes back, and why
    causes: Option<Causes>,
    // how often each was a cause, in the order of their names, and how often none was
    counts: [u64; 5],
}

// What an act lost, by the counts in its worker's record before and after it.
fn loss_of(e: &Entered) -> Loss {
    if e.before[4] != e.after[4] {
        Loss::BySchedule
    } else if e.before[3] != e.after[3] {
        Loss::ByWords
    } else {
        Loss::Nothing
    }
}

// In the order of their names which of them hold, or that none does.
fn held(c: Causes) -> [bool; 5] {
    let is_any = c.schedule || c.own || c.other || c.hand;
    [c.schedule, c.own, c.other, c.hand, !is_any]
}

impl Because {
    pub fn new() -> Because {
        Because {
            watches: bounded_causes::start(),
            causes: None,
            counts: [0; 5],
        }
    }

    pub fn after(&mut self, e: &Entered) {
        self.causes = None;
        if e.kind() != Kind::Acted {
            return;
        }
        let named = bounded_causes::name_causes(
            self.watches,
            e.worker(),
            e.stood(),
            e.stands(),
            loss_of(e),
        );
        self.watches = named.watches;
        if named.back {
            self.causes = Some(named.causes);
            for (count, it) in self.counts.iter_mut().zip(held(named.causes)) {
                *count = count.wrapping_add(u64::from(it));
            }
        }
    }

    // because=LIST, where the act goes back
    pub fn tell(&self, text: &mut Text) {
        let Some(causes) = self.causes else {
            return;
        };
        text.text(" because=");
        let mut behind_another = false;
        for (name, it) in NAMES.iter().zip(held(causes)) {
            if it {
                if behind_another {
                    text.byte(b',');
                }
                text.text(name);
                behind_another = true;
            }
        }
    }

    pub fn tell_counts(&self, text: &mut Text) {
        let form = "because schedule=# own-end=# other-end=# hand=# none=#\n";
        text.form(form, &self.counts);
    }
}
