// What a refusal means, in one line.

use text_output::Text;
use text_system::System;

// By the refusal's number; there are none that have no text here. The numbers of a form: the entry's place; the worker; or the sequences, their bytes
// and the buffer's.
fn form_of(refusal: u64) -> &'static str {
    match refusal {
        1 => "refused 1: a capacity of 0 or above 1,024",
        2 => "refused 2: a worker count of 0 or above 16",
        3 => "refused 3: entry #: no such worker",
        4 => "refused 4: entry #: a call begun by a busy worker",
        5 => "refused 5: entry #: an act of an idle worker",
        6 => "refused 6: a broken machine",
        7 => "refused 7: entry #: no act left on the meter",
        8 => "refused 8: entry #: code 9 where the next action is no weak exchange",
        9 => "refused 9: entry #: code above 9, or an item where none may be",
        11 => "refused 11: an odd number of words",
        18 => "refused 18: an edition that is not 1 or 2",
        19 => "refused 19: more than 3 workers, or a depth above 12",
        20 => "refused 20: worker # is idle",
        21 => "refused 21: fewer acts left on the meter than the depth",
        22 => "refused 22: the list has # sequences in # bytes, and the buffer #",
        _ => "",
    }
}

// On standard error; one of many is told in its place.
pub fn tell(system: &System, text: &mut Text, many: bool, refusal: u64, numbers: &[u64]) {
    let form = form_of(refusal);
    if many {
        text.form(form, numbers);
        text.byte(b'\n');
        return;
    }
    let mut room = [0; 256];
    let mut line = Text::new(&mut room);
    line.form(form, numbers);
    line.byte(b'\n');
    walk_lists::said::on_error(system, &line);
}
