// A schedule's numbers as words. Acts of one worker in a row are one line, which is written once the next entry is no such act.
use text_output::Text;

// The acts that are not written yet: their first number, and how many they are; 0: there are none.
#[derive(Clone, Copy)]
pub struct Row {
    pub first: u64,
    pub times: u64,
}

// By their codes.
const CALLS_AND_ACTS: [&str; 10] = [
    "push #",
    "force_push #",
    "pop",
    "len",
    "is_empty",
    "is_full",
    "close",
    "is_closed",
    "act",
    "fail",
];

pub fn capacity(text: &mut Text, number: u64) {
    text.form("capacity #\n", &[number]);
}

pub fn workers(text: &mut Text, number: u64) {
    text.form("workers #\n", &[number]);
}

// wK and what it does
fn entry_line(text: &mut Text, first: u64, item: u64) {
    text.form("w# ", &[first / 16]);
    text.nth(&CALLS_AND_ACTS, (first % 16) as usize, &[item]);
}

impl Row {
    pub fn none() -> Row {
        Row { first: 0, times: 0 }
    }

    // Writes the acts that are left, where there are any.
    pub fn end(&mut self, text: &mut Text) {
        match self.times {
            0 => return,
            1 => {
                entry_line(text, self.first, 0);
                text.byte(b'\n');
            }
            times => {
                entry_line(text, self.first, 0);
                text.form(" #\n", &[times]);
            }
        }
        *self = Row::none();
    }

    // So many acts more: one row with these, where they are of one worker and a row's number holds them all.
    pub fn acts(&mut self, text: &mut Text, first: u64, times: u64) {
        if self.times != 0 && self.first == first && times <= u64::MAX - self.times {
            self.times += times;
            return;
        }
        self.end(text);
        *self = Row { first, times };
    }

    // One entry more, which can be read.
    pub fn entry(&mut self, text: &mut Text, first: u64, item: u64) {
        if first % 16 < 8 {
            self.end(text);
            entry_line(text, first, item);
            text.byte(b'\n');
        } else {
            self.acts(text, first, 1);
        }
    }
}
