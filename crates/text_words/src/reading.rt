// The text of a schedule, byte by byte, in numbers or in words: the first thing that is no comment decides, a letter for words. The words give the numbers that they
// stand for, so that who reads a schedule need not know which form it has. `act N` gives N entries, as many at a time as find room.
use crate::line::Words;
use text_numbers::Piece;

#[derive(Clone, Copy, PartialEq, Eq)]
pub enum Form {
    Numbers,
    Words,
}

impl Words {
    // Puts the entry that is still to be handed on, as often as there is room; how many numbers are there then.
    fn hand_on(&mut self, list: &mut [u64], count: usize) -> usize {
        let mut n = count;
        while self.left > 0 && n < list.len() && n + 1 < list.len() {
            list[n] = self.first;
            list[n + 1] = self.item;
            n += 2;
            self.left -= 1;
        }
        n
    }

    // To the end, to what stops it, or until the list is full.
    fn in_words(&mut self, many: bool, bytes: &[u8], list: &mut [u64], count: usize) -> Piece {
        let names = crate::names::all();
        let mut kept = count;
        for (i, b) in bytes.iter().enumerate() {
            match self.byte(&names, many, *b) {
                Ok(None) => kept = self.hand_on(list, kept),
                Ok(Some(number)) => kept = text_numbers::keep(list, kept, number),
                Err(stop) => {
                    return Piece {
                        used: i + 1,
                        count: kept,
                        stop: Some(stop),
                    };
                }
            }
            if self.left > 0 {
                return Piece {
                    used: i + 1,
                    count: kept,
                    stop: None,
                };
            }
        }
        Piece {
            used: bytes.len(),
            count: kept,
            stop: None,
        }
    }

    // The form that a byte decides: a letter for words; white space, a comment and a mark decide nothing.
    fn decided(&self, many: bool, b: u8) -> Option<Form> {
        let is_mark = many && b == b'%' && self.scan.column == 1;
        if !self.scan.is_between()
            || is_mark
            || matches!(b, b'\n' | b'#')
            || text_numbers::is_blank(b)
        {
            return None;
        }
        if b.is_ascii_alphabetic() {
            return Some(Form::Words);
        }
        Some(Form::Numbers)
    }

    // What stands before the byte that decides; that one is not used.
    fn before_form(&mut self, many: bool, bytes: &[u8], count: usize) -> Piece {
        for (i, b) in bytes.iter().enumerate() {
            self.form = self.decided(many, *b);
            if self.form.is_some() {
                return Piece {
                    used: i,
                    count,
                    stop: None,
                };
            }
            if let Err(stop) = self.scan.byte(many, *b) {
                return Piece {
                    used: i + 1,
                    count,
                    stop: Some(stop),
                };
            }
        }
        Piece {
            used: bytes.len(),
            count,
            stop: None,
        }
    }

    // A piece of text, to its end, to what stops it, or until the list is full, as it may be before the piece is used.
    pub fn read_piece(
        &mut self,
        many: bool,
        bytes: &[u8],
        list: &mut [u64],
        count: usize,
    ) -> Piece {
        let kept = self.hand_on(list, count);
        let mut before = Piece {
            used: 0,
            count: kept,
            stop: None,
        };
        if self.left > 0 {
            return before;
        }
        if self.form.is_none() {
            before = self.before_form(many, bytes, kept);
        }
        if before.stop.is_some() || bytes.len() < before.used {
            return before;
        }
        let rest = &bytes[before.used..];
        let after = match self.form {
            Some(Form::Words) => self.in_words(many, rest, list, kept),
            Some(Form::Numbers) => self.scan.read_piece(many, rest, list, kept),
            None => return before,
        };
        Piece {
            used: before.used.wrapping_add(after.used),
            ..after
        }
    }
}
