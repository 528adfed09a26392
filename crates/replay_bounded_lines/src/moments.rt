// At which moment a plain queue gives an answer, told along a run.
use crate::Entered;
use bounded_moments::{Moment, Moments};
use replay_bounded_window::Window;
use replay_survey::counts::Kind;
use text_output::Text;
use text_system::System;

#[derive(Clone, Copy)]
pub struct Answers {
    moments: Moments,
    // of the entry just run, where it is an act that ends its call
    latest: Option<Moment>,
    // beyond it no answer has a moment
    window: Window,
}

impl Answers {
    // Before the first entry, of a ring of this capacity.
    pub fn new(capacity: u64) -> Answers {
        Answers {
            moments: bounded_moments::start(capacity),
            latest: None,
            window: Window::new(),
        }
    }

    // At sixteen bits or not.
    pub fn after(&mut self, e: &Entered, narrow: bool) {
        self.window
            .after(narrow, e.ring, e.first, e.refusal, e.before, e.after);
        self.latest = None;
        match e.kind() {
            Kind::Refused => {}
            Kind::Begun => self.moments = bounded_moments::begun(self.moments),
            Kind::Acted => {
                let named = bounded_moments::name_moment(
                    self.moments,
                    e.worker(),
                    e.stood(),
                    e.stands(),
                );
                self.moments = named.moments;
                if named.ends {
                    self.latest = Some(named.moment);
                }
            }
        }
    }

    // at=J or at=J+; an answer whose moment is still to come there is none (`Answered` of bounded_demands); at=- beyond the window
    pub fn tell(&self, text: &mut Text) {
        let Some(moment) = self.latest else {
            return;
        };
        if self.window.is_left() {
            text.text(" at=-");
            return;
        }
        match moment {
            Moment::Before(place) => text.form(" at=#", &[place]),
            Moment::After(place) => text.form(" at=#+", &[place]),
            Moment::AfterNextTail | Moment::AfterNextHead => text.text(" at=none"),
        }
    }

    // left the window at entry N, behind the line of that entry
    pub fn tell_window(&self, system: &System, text: &mut Text, place: u64) {
        self.window.tell(system, text, place);
    }
}
