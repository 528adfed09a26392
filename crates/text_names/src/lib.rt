// A file's name as a line may have it: what would end the line, or be obeyed by a terminal, is written as archive writes it; knows no queue.
#![tactic(auto)]

use std::fmt::Write;
use text_output::{Text, put};

fn obeyed(text: &mut Text, b: u8) {
    match b {
        b'\n' => text.text("\\n"),
        b'\r' => text.text("\\r"),
        b'\t' => text.text("\\t"),
        _ => {
            put!(text, "\\x{b:02x}");
        }
    }
}

// The bytes below a space, the one that deletes, and 128 to 159: these too are no letter unless they go on with one that has begun, by another byte than 194.
fn is_obeyed(before: u8, b: u8) -> bool {
    if b < 128 {
        return b < 32 || b == 127;
    }
    b < 160 && (before < 128 || before == 194)
}

pub fn shown(text: &mut Text, name: &[u8]) {
    let mut before = 0;
    for b in name {
        if is_obeyed(before, *b) {
            obeyed(text, *b);
        } else {
            text.byte(*b);
        }
        before = *b;
    }
}

// The most bytes that a path takes, written so.
pub const ROOM: usize = 16384;
