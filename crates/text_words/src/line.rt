// The lines of a schedule in words, byte by byte: which words may stand where, and what a whole line means.
use crate::reading::Form;
use text_numbers::{Scan, State, Stop};

// What may stand next on a line. The first three begin one: as many numbers as there are of capacity and workers say which.
#[derive(Clone, Copy, PartialEq, Eq)]
enum Want {
    Capacity,
    Workers,
    Worker,
    Number,
    Name,
    Item,
    Times,
    LineEnd,
    // a worker whose entry would not fit 64 bits, in the place of Worker
    Lower,
}

// The word at hand.
#[derive(Clone, Copy, PartialEq, Eq)]
enum Kind {
    NoWord,
    Letters,
    Digits,
    // a w and digits
    OneWorker,
    Other,
    // digits of a number that does not fit 64 bits, alone and after a w
    Large,
    LargeWorker,
    Comment,
    // after a `%` at the start of a line
    Percent,
}

// Where a reading stands: its `Scan` has the line, the column and a number's value.
#[derive(Clone, Copy)]
pub struct Words {
    pub scan: Scan,
    // which form the text has, once that is decided
    pub form: Option<Form>,
    // what begins the line
    head: Want,
    want: Want,
    kind: Kind,
    // the letters of the word at hand as one number
    spelled: u64,
    // the entry of the line at hand, how often it is meant, and how often it is still to be handed on
    pub first: u64,
    pub item: u64,
    times: u64,
    pub left: u64,
}

// `w` alone, which digits may follow.
const W: u64 = 23;

// What follows the name of a call or an act.
fn after_name(code: usize) -> Want {
    match code {
        0 | 1 => Want::Item,
        8 | 9 => Want::Times,
        _ => Want::LineEnd,
    }
}

impl Words {
    // Before a schedule, on this line; 1: of a queue that has no capacity.
    pub fn start(line: u64, before: usize) -> Words {
        let head = if before == 0 {
            Want::Capacity
        } else {
            Want::Workers
        };
        Words {
            scan: Scan::start(line),
            form: None,
            head,
            want: head,
            kind: Kind::NoWord,
            spelled: 0,
            first: 0,
            item: 0,
            times: 1,
            left: 0,
        }
    }

    // What should stand where something else does or nothing.
    pub fn expected(&self) -> &'static str {
        match self.want {
            Want::Capacity => "expected: capacity and a number",
            Want::Workers => "expected: workers and a number",
            Want::Worker => "expected: a worker (w0, w1, ..)",
            Want::Number => "expected: a number",
            Want::Name =>
                "expected: push, force_push, pop, len, is_empty, is_full, close, is_closed, act or fail",
            Want::Item => "expected: an item, which is a number",
            Want::Times => "expected: a number of acts, from 1",
            Want::LineEnd => "expected: the end of the line",
            Want::Lower => "expected: a worker up to w1152921504606846975",
        }
    }

    // One byte further, in a word of this kind.
    fn along(&mut self, kind: Kind) {
        self.scan.column = self.scan.column.wrapping_add(1);
        self.kind = kind;
    }

    fn wants(&mut self, want: Want) {
        self.want = want;
        self.kind = Kind::NoWord;
        self.spelled = 0;
    }

    fn unexpected(&mut self, want: Want) -> Stop {
        self.want = want;
        Stop::Unexpected
    }

    // The word at hand, where only a number may stand.
    fn number(&self) -> Result<u64, Stop> {
        match self.kind {
            Kind::Digits => Ok(self.scan.value),
            Kind::Large => Err(Stop::TooLarge),
            _ => Err(Stop::Unexpected),
        }
    }

    fn with_item(&mut self) -> Result<(), Stop> {
        self.item = self.number()?;
        self.wants(Want::LineEnd);
        Ok(())
    }

    fn with_times(&mut self) -> Result<(), Stop> {
        let times = self.number()?;
        if times == 0 {
            return Err(Stop::Unexpected);
        }
        self.times = times;
        self.wants(Want::LineEnd);
        Ok(())
    }

    fn with_head(&mut self, names: &[u64], name: usize) -> Result<(), Stop> {
        if self.kind != Kind::Letters || crate::names::place_of(names, self.spelled) != Some(name) {
            return Err(Stop::Unexpected);
        }
        self.wants(Want::Number);
        Ok(())
    }

    fn with_worker(&mut self) -> Result<(), Stop> {
        if self.kind == Kind::LargeWorker {
            return Err(self.unexpected(Want::Lower));
        }
        if self.kind != Kind::OneWorker {
            return Err(Stop::Unexpected);
        }
        if self.scan.value >= 1152921504606846976 {
            return Err(self.unexpected(Want::Lower));
        }
        self.first = 16 * self.scan.value;
        self.wants(Want::Name);
        Ok(())
    }

    fn with_name(&mut self, names: &[u64]) -> Result<(), Stop> {
        match crate::names::place_of(names, self.spelled) {
            Some(code) if self.kind == Kind::Letters && code < crate::names::CALLS_AND_ACTS => {
                self.first = self.first.wrapping_add(code as u64);
                self.item = 0;
                self.times = 1;
                self.wants(after_name(code));
                Ok(())
            }
            _ => Err(Stop::Unexpected),
        }
    }

    // The word that has just ended, at the place where it stands.
    fn with_word(&mut self, names: &[u64]) -> Result<(), Stop> {
        match self.want {
            Want::Capacity => self.with_head(names, crate::names::CAPACITY),
            Want::Workers => self.with_head(names, crate::names::WORKERS),
            Want::Worker => self.with_worker(),
            Want::Number | Want::Item => self.with_item(),
            Want::Name => self.with_name(names),
            Want::Times => self.with_times(),
            Want::LineEnd | Want::Lower => Err(self.unexpected(Want::LineEnd)),
        }
    }

    fn ended(&mut self, names: &[u64]) -> Result<(), Stop> {
        if self.kind != Kind::NoWord {
            self.with_word(names)?;
        }
        self.scan.state = State::Between;
        self.scan.value = 0;
        Ok(())
    }

    // Whether a line may end here.
    fn may_end(&self) -> bool {
        self.want == self.head || matches!(self.want, Want::Times | Want::LineEnd)
    }

    // Before a comment or the line's end: the word before it, and whether the line has all that it needs.
    fn closed(&mut self, names: &[u64]) -> Result<(), Stop> {
        self.ended(names)?;
        if !self.may_end() {
            self.scan.start = self.scan.column;
            return Err(Stop::Unexpected);
        }
        Ok(())
    }

    fn number_of_head(&mut self, next: Want) -> Option<u64> {
        self.head = next;
        self.want = next;
        Some(self.item)
    }

    // A whole line: its number, or its entry, which is handed on as often as is said.
    fn handed(&mut self) -> Option<u64> {
        self.kind = Kind::NoWord;
        if self.want == self.head {
            return None;
        }
        match self.head {
            Want::Capacity => self.number_of_head(Want::Workers),
            Want::Workers => self.number_of_head(Want::Worker),
            _ => {
                self.left = self.times;
                self.want = Want::Worker;
                None
            }
        }
    }

    fn line_end(&mut self, names: &[u64]) -> Result<Option<u64>, Stop> {
        let next = Scan::start(self.scan.line.wrapping_add(1));
        if self.kind == Kind::Percent {
            self.scan = next;
            return Err(Stop::Mark);
        }
        if self.kind != Kind::Comment {
            self.closed(names)?;
        }
        self.scan = next;
        Ok(self.handed())
    }

    fn with_comment(&mut self, names: &[u64]) -> Result<(), Stop> {
        self.closed(names)?;
        self.along(Kind::Comment);
        Ok(())
    }

    fn with_blank(&mut self, names: &[u64]) -> Result<(), Stop> {
        self.ended(names)?;
        self.along(self.kind);
        Ok(())
    }

    // A digit of a number that is read as those of text_numbers are, and keeps where its word began.
    fn digit(&mut self, b: u8, kind: Kind, large: Kind) {
        let start = self.scan.start;
        let read = self.scan.byte(false, b);
        self.scan.start = start;
        if read.is_ok() {
            self.kind = kind;
        } else {
            self.along(large);
        }
    }

    fn with_digit(&mut self, b: u8) {
        match self.kind {
            Kind::NoWord | Kind::Digits => self.digit(b, Kind::Digits, Kind::Large),
            Kind::OneWorker => self.digit(b, Kind::OneWorker, Kind::LargeWorker),
            Kind::Letters if self.spelled == W => self.digit(b, Kind::OneWorker, Kind::LargeWorker),
            Kind::Letters => self.along(Kind::Other),
            kind => self.along(kind),
        }
    }

    fn with_other(&mut self, b: u8) {
        match crate::names::letter_of(b) {
            Some(letter) if matches!(self.kind, Kind::NoWord | Kind::Letters) => {
                self.spelled = crate::names::with_letter(self.spelled, letter);
                self.along(Kind::Letters);
            }
            _ => self.along(Kind::Other),
        }
    }

    // A byte of a word.
    fn in_word(&mut self, b: u8) {
        if self.kind == Kind::NoWord {
            self.scan.start = self.scan.column;
        }
        if b.is_ascii_digit() {
            self.with_digit(b);
        } else {
            self.with_other(b);
        }
    }

    // Behind a `%` only blanks may stand on its line.
    fn in_percent(&mut self, b: u8) -> Result<(), Stop> {
        if !text_numbers::is_blank(b) {
            return Err(Stop::Unexpected);
        }
        self.along(Kind::Percent);
        Ok(())
    }

    fn is_mark(&self, many: bool, b: u8) -> bool {
        many && b == b'%' && self.scan.column == 1 && self.kind == Kind::NoWord
    }

    // One byte more; the number that it ends, if it ends one.
    pub fn byte(&mut self, names: &[u64], many: bool, b: u8) -> Result<Option<u64>, Stop> {
        if b == b'\n' {
            return self.line_end(names);
        }
        match self.kind {
            Kind::Comment => self.along(Kind::Comment),
            Kind::Percent => self.in_percent(b)?,
            _ if b == b'#' => self.with_comment(names)?,
            _ if text_numbers::is_blank(b) => self.with_blank(names)?,
            _ if self.is_mark(many, b) => self.along(Kind::Percent),
            _ => self.in_word(b),
        }
        Ok(None)
    }
}
