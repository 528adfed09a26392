// Numbers out of text, byte by byte: unsigned decimal numbers separated by white space; `#` starts a comment to the end of
// its line. Where several schedules stand in one text, a line with a single `%` ends one.
#![tactic(auto)]

ghost use Rattle.std.specs.Prelude.{◌≡◌, ◌+◌, ◌≤◌};

// What stops a reading; the last is of a schedule in words alone (text_words).
#[derive(Clone, Copy, PartialEq, Eq)]
pub enum Stop {
    Mark,
    NoNumber,
    TooLarge,
    Unexpected,
}

#[derive(Clone, Copy, PartialEq, Eq)]
pub enum State {
    Between,
    Digits,
    Comment,
    // after a `%` at the start of a line
    Percent,
}

#[derive(Clone, Copy)]
pub struct Scan {
    pub state: State,
    // of the digits so far
    pub value: u64,
    // of the next byte, from 1
    pub line: u64,
    pub column: u64,
    // the column at which the number, or what should be one, began
    pub start: u64,
}

// What stands in a piece of text: how many bytes of it were used, how many numbers are kept, and what stopped it.
#[derive(Clone, Copy)]
pub struct Piece {
    pub used: usize,
    pub count: usize,
    pub stop: Option<Stop>,
}

pub fn is_blank(b: u8) -> bool {
    matches!(b, 9 | 11 | 12 | 13 | 32)
}

fn digit_of(b: u8) -> u64
    requires { 48 ≤ b }
    ensures { result + 48 ≡ b }
{
    u64::from(b - 48)
}

impl Scan {
    pub fn start(line: u64) -> Scan {
        Scan {
            state: State::Between,
            value: 0,
            line,
            column: 1,
            start: 1,
        }
    }

    // One byte further on the same line.
    fn along(&mut self, state: State, value: u64) {
        self.state = state;
        self.value = value;
        self.column = self.column.wrapping_add(1);
    }

    // 10 * value + d, where it fits 64 bits.
    fn with_digit(&mut self, d: u64) -> Result<(), Stop> {
        let v = self.value;
        if v < 1844674407370955161 && d < 10 {
            self.along(State::Digits, 10 * v + d);
            return Ok(());
        }
        if v == 1844674407370955161 && d <= 5 {
            self.along(State::Digits, 18446744073709551610 + d);
            return Ok(());
        }
        Err(Stop::TooLarge)
    }

    fn digit(&mut self, b: u8) -> Result<(), Stop> {
        if !b.is_ascii_digit() {
            return Err(Stop::NoNumber);
        }
        self.with_digit(digit_of(b))
    }

    fn between(&mut self, many: bool, b: u8) -> Result<(), Stop> {
        if is_blank(b) {
            self.along(State::Between, 0);
            return Ok(());
        }
        if b == b'#' {
            self.along(State::Comment, 0);
            return Ok(());
        }
        if many && b == b'%' && self.column == 1 {
            self.start = 1;
            self.along(State::Percent, 0);
            return Ok(());
        }
        self.value = 0;
        self.start = self.column;
        self.digit(b)
    }

    // The number that ends here, if one does.
    fn in_digits(&mut self, b: u8) -> Result<Option<u64>, Stop> {
        let value = self.value;
        if is_blank(b) {
            self.along(State::Between, 0);
            return Ok(Some(value));
        }
        if b == b'#' {
            self.along(State::Comment, 0);
            return Ok(Some(value));
        }
        self.digit(b)?;
        Ok(None)
    }

    fn in_percent(&mut self, b: u8) -> Result<(), Stop> {
        if !is_blank(b) {
            return Err(Stop::NoNumber);
        }
        self.along(State::Percent, 0);
        Ok(())
    }

    // A line's end: it ends a number, a comment, and the line of a `%`.
    fn line_end(&mut self) -> Result<Option<u64>, Stop> {
        let before = *self;
        *self = Scan::start(before.line.wrapping_add(1));
        match before.state {
            State::Between | State::Comment => Ok(None),
            State::Digits => Ok(Some(before.value)),
            State::Percent => Err(Stop::Mark),
        }
    }

    // The number that this byte ends, if it ends one.
    pub fn byte(&mut self, many: bool, b: u8) -> Result<Option<u64>, Stop> {
        if b == b'\n' {
            return self.line_end();
        }
        match self.state {
            State::Between => self.between(many, b)?,
            State::Digits => return self.in_digits(b),
            State::Comment => self.along(State::Comment, 0),
            State::Percent => self.in_percent(b)?,
        }
        Ok(None)
    }

    pub fn is_between(&self) -> bool {
        self.state == State::Between
    }

    // Where reading stands after a row.
    fn after_row(&mut self, r: Row) {
        let line = self.line.wrapping_add(r.lines);
        if r.next == r.begun {
            *self = Scan::start(line);
            return;
        }
        let column = if r.lines == 0 { self.column } else { 1 };
        *self = Scan {
            state: State::Between,
            value: 0,
            line,
            column: column_of(r.begun, column, r.next),
            start: column_of(r.begun, column, r.last),
        };
    }

    // A piece of text, to its end or to what stops it. The list has room for a number to each two bytes.
    pub fn read_piece(
        &mut self,
        many: bool,
        bytes: &[u8],
        list: &mut [u64],
        count: usize,
    ) -> Piece {
        let mut kept = count;
        let mut i = 0;
        while i < bytes.len() {
            if self.is_between() {
                let row = row_from(bytes, i, list, kept);
                if i < row.next {
                    self.after_row(row);
                    kept = row.count;
                    i = row.next;
                    continue;
                }
            }
            let brought = self.byte(many, bytes[i]);
            i += 1;
            match brought {
                Ok(None) => {}
                Ok(Some(number)) => kept = keep(list, kept, number),
                Err(stop) => {
                    return Piece {
                        used: i,
                        count: kept,
                        stop: Some(stop),
                    };
                }
            }
        }
        Piece {
            used: i,
            count: kept,
            stop: None,
        }
    }
}

// A number that has ended goes into the list; one that finds no room is left out.
pub fn keep(list: &mut [u64], count: usize, number: u64) -> usize {
    if count < list.len() {
        list[count] = number;
        return count + 1;
    }
    count
}

// Whole numbers in a row, each ended by one space or by a line's end, which is what most text is made of.
#[derive(Clone, Copy)]
struct Row {
    // behind the last of them, and where it began
    next: usize,
    last: usize,
    // how many numbers are kept
    count: usize,
    // how many lines have ended, and where the next one began
    lines: u64,
    begun: usize,
}

// What a byte is to the digits before it, of which the number surely fits 64 bits: one more, the end of their number, or what is read otherwise.
#[derive(Clone, Copy)]
enum Next {
    Digit(u64),
    Ends,
    EndsLine,
    Other,
}

fn next_of(v: u64, b: u8) -> Next {
    match b {
        b' ' => Next::Ends,
        b'\n' => Next::EndsLine,
        b'0'..=b'9' if v < 100000000000000000 => Next::Digit(10 * v + digit_of(b)),
        _ => Next::Other,
    }
}

fn row_from(bytes: &[u8], from: usize, list: &mut [u64], count: usize) -> Row {
    let mut r = Row {
        next: from,
        last: from,
        count,
        lines: 0,
        begun: from,
    };
    let mut value = 0;
    for i in from..bytes.len() {
        let next = next_of(value, bytes[i]);
        if let Next::Digit(v) = next {
            value = v;
            continue;
        }
        if matches!(next, Next::Other) || r.next == i {
            return r;
        }
        r.count = keep(list, r.count, value);
        r.last = r.next;
        r.next = i + 1;
        if matches!(next, Next::EndsLine) {
            r.lines = r.lines.wrapping_add(1);
            r.begun = r.next;
        }
        value = 0;
    }
    r
}

// The column of a byte of the line that began at this place with this column.
fn column_of(begun: usize, column: u64, at: usize) -> u64 {
    column.wrapping_add(at.wrapping_sub(begun) as u64)
}
