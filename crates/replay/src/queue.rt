// The queue that the options name: what a schedule of it has before its first number, and how it is run.
use replay_explain::Explained;
use replay_input::source::Reading;
use replay_options::{Options, Queue};
use replay_survey::{Played, Whole};
use std::fs::File;
use text_explain::terminal;
use text_output::Text;
use text_system::System;

// A schedule of the other queues has no capacity; one is put before it, so that all are read alike.
pub fn before(o: Options) -> usize {
    usize::from(o.queue != Queue::Bounded)
}

// The unbounded queue has no force_push: code 1. There are words for it.
pub fn barred(o: Options) -> u64 {
    if o.queue == Queue::Unbounded && !o.words {
        1
    } else {
        16
    }
}

// In plain words.
fn explained(
    system: &System,
    o: Options,
    file: &File,
    begun: Reading,
    whole: Whole,
    text: &mut Text,
) -> Played {
    let how = Explained {
        colours: terminal::has_colours(system),
        follows: if o.follow { Some(o.item) } else { None },
    };
    match o.queue {
        Queue::Bounded => {
            replay_bounded_explain::play::play(system, o, how, file, begun, whole, text)
        }
        Queue::Single => replay_single_explain::play(system, o, how, file, begun, whole, text),
        Queue::Unbounded => replay_unbounded_explain::play(
            system, o, how, file, begun, whole, text,
        ),
    }
}

pub fn play(
    system: &System,
    o: Options,
    file: &File,
    begun: Reading,
    whole: Whole,
    text: &mut Text,
) -> Played {
    if o.words {
        replay_words::tell(system, file, o.many, begun, before(o), text);
        return Played::told(false);
    }
    if o.explain {
        return explained(system, o, file, begun, whole, text);
    }
    match o.queue {
        Queue::Bounded => replay_bounded::play::play(system, o, file, begun, whole, text),
        Queue::Single => replay_single::play::play(system, o, file, begun, whole, text),
        Queue::Unbounded => replay_unbounded::play::play(system, o, file, begun, whole, text),
    }
}
