// The ring's words as text, as `text_output` has it: places by their codes (crate bounded_codes has the table of codes), slots and items.
#![tactic(auto)]

use text_output::Text;
use text_system::System;

const PLACES: &[&str] = &[
    "idle:none",
    "idle:pushed",
    "idle:empty",
    "idle:closed",
    "idle:yes",
    "idle:no",
    "idle:full(#)",
    "idle:closed(#)",
    "idle:displaced(#)",
    "idle:popped(#)",
    "idle:len(#)",
    "P1:push(#)",
    "P1:force(#)",
    "empty2(#)",
    "full2(#)",
    "P5(#)",
    "O2(#)",
    "O3(#)",
    "O4(#)",
    "O6(#)",
    "len2(#)",
    "len3(#,#)",
    "P2:push(#,#)",
    "P2:force(#,#)",
    "P3:push(#,#)",
    "P3:force(#,#)",
    "P4(#,#)",
    "P6(#,#)",
    "F6(#,#)",
    "F7(#,#)",
    "F8(#,#)",
    "F9(#,#)",
    "O5(#,#)",
    "O1",
    "len1",
    "empty1",
    "full1",
    "close1",
    "isclosed1",
];

// The place of this code, which holds these two words.
pub fn place(text: &mut Text, code: u64, first: u64, second: u64) {
    text.nth(PLACES, code as usize, &[first, second]);
}

// The stamps and values of the slots below capacity. A full line of slots can be longer than a buffer, so it is settled slot by slot.
pub fn slots(system: &System, text: &mut Text, slots: &[u64], capacity: u64) {
    text.text("slots");
    for i in 0..slots.len() / 2 {
        if capacity <= i as u64 {
            break;
        }
        text.form(" (#,#)", &[slots[2 * i], slots[2 * i + 1]]);
        text.settle(system);
    }
    text.byte(b'\n');
}

// NAME x y ..., so many of the items, or: NAME refused N
pub fn told(system: &System, text: &mut Text, name: &str, items: &[u64], refusal: u64, n: u64) {
    text.text(name);
    if refusal != 0 {
        return text.form(" refused #\n", &[refusal]);
    }
    for (i, x) in items.iter().enumerate() {
        if n <= i as u64 {
            break;
        }
        text.byte(b' ');
        text.number(*x);
        text.settle(system);
    }
    text.byte(b'\n');
}
