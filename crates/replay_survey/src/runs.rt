// What the replays of all queues have in common: a machine that was made is run piece by piece, and told at the end.
use crate::pieces::{Pieces, Run};
use crate::{Played, answers, pieces};
use replay_input::source::{BYTES, Input, NUMBERS, Reading};
use std::fs::File;
use text_output::Text;
use text_system::System;

// A machine that was made, and what its run is told by.
pub trait Runner {
    // The entries of a piece, two numbers each, to the first refusal; answers how far the run is then.
    fn entries(&mut self, system: &System, run: Run, list: &[u64], text: &mut Text) -> Run;

    // What stands at the end.
    fn tell(&self, system: &System, run: Run, text: &mut Text);

    // What each worker answered last.
    fn answers(&self) -> [u64; answers::WORDS];
}

// Entry by entry, to the list's end or to the first refusal. `entry` has the entry's place and its two numbers, and answers its refusal or 0.
pub fn steps<F: FnMut(u64, u64, u64) -> u64 + Drop>(run: Run, list: &[u64], mut entry: F) -> Run
    requires { F.IsAlwaysCallable entry }
{
    let mut place = run.place;
    for i in 0..list.len() / 2 {
        let refusal = entry(place, list[2 * i], list[2 * i + 1]);
        if refusal != 0 {
            return Run {
                place,
                refusal,
                ..run
            };
        }
        place = place.wrapping_add(1);
    }
    Run { place, ..run }
}

// The schedule, piece by piece, to its end or to the first refusal.
pub fn play<R: Runner>(
    system: &System,
    file: &File,
    many: bool,
    begun: Reading,
    start: Run,
    runner: &mut R,
    text: &mut Text,
) -> Played {
    let mut bytes = [0u8; BYTES];
    let mut list = [1u64; NUMBERS];
    let mut input = Input {
        system,
        file,
        many,
        bytes: &mut bytes,
        list: &mut list,
    };
    let mut p = Pieces::start(begun);
    let mut run = start;
    for _ in 0..u64::MAX {
        if !p.goes_on(system, run, text) {
            break;
        }
        p.next(&mut input, run);
        run = runner.entries(system, run, p.entries(input.list), text);
    }
    p.ended(&mut input, text);
    runner.tell(system, run, text);
    pieces::end(system, text, many);
    run.played(runner.answers())
}
