// Text, put together in memory that the caller lends and written by one call. What finds no room is left out, so that no caller
// owes a bound; `flush` writes what is there. Once a write has failed the text is lost: nothing finds room any more, since nothing
// is written behind a gap, and who asks at the end knows of it.
#![tactic(auto)]

use std::fmt;
use std::fmt::Write;
use text_system::System;

// The text of the longest line of an entry is far below this; where this much room is left nothing is left out.
pub const LINE: usize = 1024;

// Why a text goes on nowhere: it could not be written; or what is read again to be told is not what it was, or can't be read,
// and the system says why.
#[derive(Clone, Copy, PartialEq, Eq)]
pub enum Loss {
    Unwritten,
    Changed,
    Unread,
}

#[derive(Drop)]
pub struct Text<'a> {
    room: &'a mut [u8],
    length: usize,
    loss: Option<Loss>,
}

impl<'a> Text<'a> {
    pub fn new(room: &'a mut [u8]) -> Text<'a> {
        Text {
            room,
            length: 0,
            loss: None,
        }
    }

    pub fn len(&self) -> usize {
        self.length
    }

    pub fn loss(&self) -> Option<Loss> {
        self.loss
    }

    pub fn is_lost(&self) -> bool {
        self.loss.is_some()
    }

    // The first loss stays.
    pub fn lose(&mut self, loss: Loss) {
        if self.loss.is_none() {
            self.loss = Some(loss);
        }
    }

    pub fn byte(&mut self, b: u8) {
        if self.length < self.room.len() && self.loss.is_none() {
            self.room[self.length] = b;
            self.length += 1;
        }
    }

    pub fn bytes(&mut self, s: &[u8]) {
        for b in s {
            self.byte(*b);
        }
    }

    pub fn text(&mut self, s: &str) {
        self.bytes(s.as_bytes());
    }

    pub fn spaces(&mut self, n: usize) {
        for _ in 0..n {
            self.byte(b' ');
        }
    }

    pub fn number(&mut self, n: u64) {
        let mut digits = [0u8; 20];
        let from = itoa::write_digits(n, &mut digits, 20);
        self.bytes(&digits[from..]);
    }

    // As `write!` puts it, the k-th number in the place of the k-th #. `write!` takes 1.6 times as long, which a line for each entry is not to (docs/SPEED.md).
    pub fn form(&mut self, form: &str, numbers: &[u64]) {
        let mut k = 0;
        for b in form.as_bytes() {
            if *b == b'#' && k < numbers.len() {
                self.number(numbers[k]);
                k += 1;
            } else {
                self.byte(*b);
            }
        }
    }

    // The n-th of these forms; nothing where there is none.
    pub fn nth(&mut self, forms: &[&str], n: usize, numbers: &[u64]) {
        if n < forms.len() {
            self.form(forms[n], numbers);
        }
    }

    // To standard output; then there is room for all of it again.
    pub fn flush(&mut self, system: &System) {
        let end = self.length;
        if self.loss.is_none() && end <= self.room.len() {
            if text_system::streams::put(system, &self.room[..end]) {
                self.length = 0;
                return;
            }
        }
        self.lose(Loss::Unwritten);
    }

    // Writes only where less than a line's room is left.
    pub fn settle(&mut self, system: &System) {
        if self.length <= self.room.len() && self.room.len() - self.length < LINE {
            self.flush(system);
        }
    }

    // Ends the line, and writes it.
    pub fn end_line(&mut self, system: &System) {
        self.byte(b'\n');
        self.flush(system);
    }

    // What is there so far.
    pub fn as_bytes(&self) -> &[u8] {
        if self.length <= self.room.len() {
            return &self.room[..self.length];
        }
        &self.room[..0]
    }
}

impl fmt::Write for Text<'_> {
    fn write_str(&mut self, s: &str) -> fmt::Result {
        self.text(s);
        Ok(())
    }
}

// `write!` on a text, which has no error.
#[macro_export]
macro_rules! put {
    ($text:expr, $($form:tt)*) => {
        let _ = write!($text, $($form)*);
    };
}

// A form with its numbers, written at once; the text is at most 512 bytes long.
pub fn say(system: &System, form: &str, numbers: &[u64]) {
    let mut room = [0u8; 512];
    let mut text = Text::new(&mut room);
    text.form(form, numbers);
    text.flush(system);
}
