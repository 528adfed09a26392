// Names of places and of answers, and where a slot is.
use text_output::Text;
use unbounded_places::Answer;
use unbounded_text_places::code::Case;

// The places in the order of their names; - for none.
const PLACES: &[&str] = &[
    "-",
    "U1",
    "U2",
    "U3",
    "U4",
    "U5",
    "U6",
    "U7",
    "U8",
    "U9",
    "U10",
    "U11",
    "U12",
    "U13",
    "U14",
    "U15",
    "V1",
    "V2",
    "V3",
    "V4",
    "V5",
    "V6",
    "V7",
    "V8",
    "V9",
    "V10",
    "V11",
    "V12",
    "V13",
    "V14",
    "V15",
    "len1",
    "len2",
    "len3",
    "empty1",
    "empty2",
    "full1",
    "close1",
    "isclosed1",
];

pub fn place(case: Case) -> &'static str {
    PLACES.get(case as usize).copied().unwrap_or("")
}

// The name of a place.
pub fn name(text: &mut Text, case: Case) {
    text.text(place(case));
}

pub fn answered(a: Answer) -> &'static str {
    match a {
        Answer::Nothing => "nothing",
        Answer::Pushed => "pushed",
        Answer::Closed(_) | Answer::PopClosed => "closed",
        Answer::Popped(_) => "popped",
        Answer::Empty => "empty",
        Answer::Len(_) => "len",
        Answer::Yes => "yes",
        Answer::No => "no",
    }
}

// What an answer hands out; 0 where it hands out nothing.
pub fn told(a: Answer) -> u64 {
    match a {
        Answer::Closed(x) | Answer::Popped(x) | Answer::Len(x) => x,
        _ => 0,
    }
}

// The place of a slot in its block, by the index word.
pub fn offset(word: u64) -> u64 {
    word / 2 % unbounded_words::LAP
}
