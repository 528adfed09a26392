// What a run came to: counts over its entries.
use text_output::Text;

// What an entry was.
#[derive(Clone, Copy, PartialEq, Eq)]
pub enum Kind {
    Refused,
    Begun,
    Acted,
}

// By its first word and its refusal, 0 where there is none.
pub fn kind_of(first: u64, refusal: u64) -> Kind {
    if refusal != 0 {
        Kind::Refused
    } else if first % 16 < 8 {
        Kind::Begun
    } else {
        Kind::Acted
    }
}

// How many kinds of answers are counted.
pub const ANSWERS: usize = 10;

#[derive(Clone, Copy)]
pub struct Counts {
    entries: u64,
    acts: u64,
    retries: u64,
    refusals: u64,
    // in the order of document 01: pushed, full, closed, displaced, popped, empty, pop's closed, len, yes, no
    answers: [u64; ANSWERS],
}

fn up_if(n: &mut u64, it: bool) {
    *n = n.wrapping_add(u64::from(it));
}

impl Counts {
    // Before the first entry; the whole may be refused.
    pub fn new(refused: bool) -> Counts {
        Counts {
            entries: 0,
            acts: 0,
            retries: 0,
            refusals: u64::from(refused),
            answers: [0; ANSWERS],
        }
    }

    pub fn entered(&mut self, kind: Kind) {
        up_if(&mut self.entries, kind != Kind::Refused);
        up_if(&mut self.acts, kind == Kind::Acted);
        up_if(&mut self.refusals, kind == Kind::Refused);
    }

    // An act went back to an earlier place of its call or not, and gave an answer or none.
    pub fn acted(&mut self, again: bool, answer: Option<usize>) {
        up_if(&mut self.retries, again);
        if let Some(i) = answer
            && i < ANSWERS
        {
            up_if(&mut self.answers[i], true);
        }
    }

    pub fn tell(&self, text: &mut Text) {
        let counts = [self.entries, self.acts, self.retries, self.refusals];
        text.form("summary entries=# acts=# retries=# refusals=#\n", &counts);
        let form =
            "answers pushed=# full=# closed=# displaced=# popped=# empty=# pop-closed=# len=# yes=# no=#\n";
        text.form(form, &self.answers);
    }
}
