// Pointers, answers and places as text.
use crate::code::{Case, Coded, NONE};
use text_output::Text;
use unbounded_places::{Answer, Place};
use unbounded_words::Pointer;

fn block(text: &mut Text, number: u64) {
    if number == NONE {
        text.byte(b'-');
    } else {
        text.number(number);
    }
}

// A block's number; - for no block.
pub fn pointer(text: &mut Text, p: Pointer) {
    match p {
        Pointer::None => text.byte(b'-'),
        Pointer::To(k) => text.number(k),
    }
}

fn answer(text: &mut Text, a: Answer) {
    match a {
        Answer::Nothing => text.text("none"),
        Answer::Pushed => text.text("pushed"),
        Answer::Closed(x) => text.form("closed(#)", &[x]),
        Answer::Popped(x) => text.form("popped(#)", &[x]),
        Answer::Empty => text.text("empty"),
        Answer::PopClosed => text.text("closed"),
        Answer::Len(n) => text.form("len(#)", &[n]),
        Answer::Yes => text.text("yes"),
        Answer::No => text.text("no"),
    }
}

// The places in the order of their names, and of each what its words are: a number n, a block b.
const PLACES: &[(&str, &str)] = &[
    ("idle:", ""),
    ("U1", "bn"),
    ("U2", "bnn"),
    ("U3", "nbn"),
    ("U4", "bnn"),
    ("U5", "bnbn"),
    ("U6", "bnbn"),
    ("U7", "bnbn"),
    ("U8", "bnn"),
    ("U9", "bnbn"),
    ("U10", "bnbn"),
    ("U11", "bnbn"),
    ("U12", "bnbn"),
    ("U13", "bnb"),
    ("U14", "b"),
    ("U15", "bbn"),
    ("V1", ""),
    ("V2", "n"),
    ("V3", "nb"),
    ("V4", "nbn"),
    ("V5", "n"),
    ("V6", "nbn"),
    ("V7", "nbnb"),
    ("V8", "nbbn"),
    ("V9", "nbn"),
    ("V10", "nb"),
    ("V11", "nb"),
    ("V12", "nbn"),
    ("V13", "bnn"),
    ("V14", "bnn"),
    ("V15", "bn"),
    ("len1", ""),
    ("len2", "n"),
    ("len3", "nn"),
    ("empty1", ""),
    ("empty2", "n"),
    ("full1", ""),
    ("close1", ""),
    ("isclosed1", ""),
];

// (A,B,C,D), as far as there are words; U14 has an answer behind its block.
fn words(text: &mut Text, c: Coded, kinds: &str) {
    let mut before = b'(';
    for (kind, word) in kinds.as_bytes().iter().zip(&c.words) {
        text.byte(before);
        before = b',';
        if *kind == b'b' {
            block(text, *word);
        } else {
            text.number(*word);
        }
    }
    if c.case == Case::U14 {
        text.byte(b',');
        answer(text, c.answer);
    }
    if before == b',' {
        text.byte(b')');
    }
}

pub fn place(text: &mut Text, p: Place) {
    let c = crate::code::of(p);
    if let Some((name, kinds)) = PLACES.get(c.case as usize) {
        text.text(name);
        if c.case == Case::Idle {
            answer(text, c.answer);
        } else {
            words(text, c, kinds);
        }
    }
}
