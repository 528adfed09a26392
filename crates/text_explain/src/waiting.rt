// What waits at the end of a run, front first, on lines of at most 100 columns.
use crate::columns;
use text_output::Text;
use text_system::System;

// An item behind the others, on the next line where there is no room; answers the column behind it.
fn item(text: &mut Text, from: usize, n: u64) -> usize {
    let mut room = [0u8; 24];
    let mut digits = Text::new(&mut room);
    digits.number(n);
    let wide = digits.len().saturating_add(1);
    let to = from.saturating_add(wide);
    let breaks = columns::WIDE < to;
    if breaks {
        text.text("\n      ");
    }
    text.byte(b' ');
    text.bytes(digits.as_bytes());
    if breaks { wide.saturating_add(6) } else { to }
}

// The first n of a list.
pub fn told(system: &System, text: &mut Text, list: &[u64], n: u64) {
    if n == 0 {
        return text.text("waits: nothing\n");
    }
    text.text("waits:");
    let mut column = 6;
    for (i, x) in list.iter().enumerate() {
        if n <= i as u64 {
            break;
        }
        column = item(text, column, *x);
        text.settle(system);
    }
    text.byte(b'\n');
}
