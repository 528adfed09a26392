// One act in words, by the place at which it is taken and what it leads to.
use crate::{Entered, notes, stood};
use text_output::Text;
use text_sentences::{Key, Row};
use unbounded_text_places::code::{Case, NONE};

// The number of the claim, if the act is one.
fn claim_of(e: Entered, tails: u64, heads: u64) -> u64 {
    if e.before.case == Case::U7 {
        tails
    } else {
        heads
    }
}

// What V11 has read, by where it leads: V15, or V12 and V13.
fn value_in(e: Entered) -> u64 {
    if e.after.case == Case::V15 {
        e.after.words[1]
    } else {
        e.after.words[2]
    }
}

// The numbers of the table's letters: a to d the words that the worker had, e to h those that it has then, i what its answer hands out; j, k the slots of a and b in their
// block; l the index word after b; m head, n its position, o head as it was; t tail, p its position, q tail as it was, r its block; s the claim, v the value read, w the worker.
fn numbers_of(e: Entered, claim: u64) -> [u64; 23] {
    let was = e.was;
    let ends = e.ends;
    let before = e.before.words;
    let after = e.after.words;
    [
        before[0],
        before[1],
        before[2],
        before[3],
        after[0],
        after[1],
        after[2],
        after[3],
        stood::told(e.after.answer),
        stood::offset(before[0]),
        stood::offset(before[1]),
        before[1].wrapping_add(2),
        ends[0],
        ends[0] / 2,
        was[0],
        ends[1] / 2,
        was[1],
        ends[2],
        claim,
        ends[1],
        0,
        value_in(e),
        e.first / 16,
    ]
}

// The word whose mark decides what U1, V1 and V7 did.
fn word_read(e: Entered) -> u64 {
    match e.before.case {
        Case::U1 => e.ends[1],
        Case::V1 => e.ends[0],
        Case::V7 => e.after.words[3],
        _ => 0,
    }
}

// V2 and V5, which load head's block
fn is_of_head(e: Entered) -> bool {
    matches!(e.before.case, Case::V2 | Case::V5)
}

fn has_no_block(e: Entered) -> bool {
    is_of_head(e) && e.after.case == Case::V3 && e.after.words[1] == NONE
}

fn is_at_end(e: Entered) -> bool {
    is_of_head(e)
        && e.after.case == Case::V1
        && stood::offset(e.before.words[0]) == unbounded_words::SLOTS
}

// What an act leads to: a place or an answer, or what it meets.
fn led_to(e: Entered) -> &'static str {
    if notes::is_failed(e) {
        return "failed";
    }
    if word_read(e) % 2 == 1 {
        return "marked";
    }
    if has_no_block(e) {
        return "none";
    }
    if is_at_end(e) {
        return "end";
    }
    if e.after.case == Case::Idle {
        return stood::answered(e.after.answer);
    }
    stood::place(e.after.case)
}

// The key of an act: its place, and what it leads to.
pub fn key(e: Entered) -> Key<'static> {
    Key {
        at: stood::place(e.before.case),
        to: led_to(e),
    }
}

const SENTENCES: &[Row] = &[
    (&["U1>marked"], "reads tail, #t, marked: position #p"),
    (&["U1"], "reads tail, #t: position #p"),
    (
        &["U2>U1", "U8>U1"],
        "tail #b is at a block's end: tries again",
    ),
    (
        &["U2>U3", "U8>U3"],
        "slot 30 comes next, its block's last: wants a block to set aside",
    ),
    (&["U2>U4", "U8>U4"], "tail has no block: wants the first"),
    (
        &["U2>U7", "U8>U7"],
        "tail's block is #g: slot #k comes next",
    ),
    (
        &["U2>U14", "U8>U14"],
        "tail #b was marked: closed; has block #a to free",
    ),
    (&["U2", "U8"], "tail #b was marked: closed, #c not pushed"),
    (&["U3"], "takes block #e and sets it aside"),
    (&["U4"], "takes block #g"),
    (&["U5>U6"], "tail's block none -> #c won"),
    (
        &["U5>U15"],
        "tail's block is #r, not none: lost; has block #a to free",
    ),
    (
        &["U5"],
        "tail's block is #r, not none: lost; keeps block #e aside",
    ),
    (&["U6"], "stores block #c as head's block"),
    (
        &["U7>failed"],
        "tail #b -> #l failed by the schedule; goes on with #b",
    ),
    (&["U7>U8"], "tail is #f, not #b: lost; goes on with #f"),
    (
        &["U7"],
        "tail #b -> #l won: claim #s is w#w's; slot #k of block #c in its hand",
    ),
    (&["U9"], "stores block #a as tail's block"),
    (&["U10"], "tail #q -> #t, over the block's end"),
    (&["U11"], "stores block #a as the next of block #c"),
    (&["U12"], "writes #d into slot #k of block #c"),
    (
        &["U13>U14"],
        "slot #k of block #c ready to be popped; has block #a to free",
    ),
    (&["U13"], "slot #k of block #c ready to be popped: pushed"),
    (&["U14>closed"], "frees block #a: closed, #i not pushed"),
    (&["U14"], "frees block #a: pushed"),
    (&["U15"], "frees block #a; keeps block #e aside"),
    (&["V1>marked"], "reads head, #m, marked: position #n"),
    (&["V1"], "reads head, #m: position #n"),
    (&["V2>none", "V5>none"], "head has no block: empty?"),
    (
        &["V2>V3", "V5>V3"],
        "head's block is #f, perhaps the last: empty?",
    ),
    (
        &["V2>V4", "V5>V4"],
        "head's block is #f: slot #j comes next",
    ),
    (
        &["V2>end", "V5>end"],
        "head #a is at a block's end: tries again",
    ),
    (&["V2", "V5"], "head has no block: tries again"),
    (&["V3>empty"], "tail is #t, as head: empty"),
    (&["V3>closed"], "tail is #t, marked, else as head: closed"),
    (
        &["V3>V4"],
        "tail is #t, head was #a: slot #j of block #b comes next",
    ),
    (
        &["V3"],
        "tail is #t, head was #a without a block: tries again",
    ),
    (
        &["V4>failed"],
        "head #a -> #c failed by the schedule; goes on with #a",
    ),
    (&["V4>V5"], "head is #e, not #a: lost; goes on with #e"),
    (
        &["V4"],
        "head #a -> #c won: claim #s is w#w's; slot #j of block #b in its hand",
    ),
    (&["V6>V6"], "block #b has no next yet: waits"),
    (&["V6"], "the next of block #b is block #h"),
    (&["V7>marked"], "block #d has a next: head is to be marked"),
    (&["V7"], "block #d has no next"),
    (&["V8"], "stores block #c as head's block"),
    (&["V9"], "head #o -> #m, over the block's end"),
    (
        &["V10>V10"],
        "slot #j of block #b is not written yet: waits",
    ),
    (&["V10"], "slot #j of block #b is written"),
    (&["V11"], "reads #v out of slot #j of block #b"),
    (&["V12>popped"], "slot #j of block #b done with: popped #c"),
    (
        &["V12"],
        "slot #j of block #b done with; block #b is w#w's to free",
    ),
    (&["V13>V14"], "slot #b of block #a is still being read"),
    (&["V13"], "slot #b of block #a is done with"),
    (
        &["V14>popped"],
        "leaves block #a to the pop of slot #b: popped #c",
    ),
    (&["V14"], "slot #b of block #a is done with by now"),
    (&["V15"], "frees block #a: popped #b"),
    (&["len1"], "reads tail, #t"),
    (&["len2", "empty1"], "reads head, #m"),
    (&["len3>len1"], "tail is #t, not #a: tries again"),
    (&["len3"], "tail is still #t: len #i"),
    (&["empty2>yes"], "tail is #t, head was #a: yes"),
    (&["empty2"], "tail is #t, head was #a: no"),
    (&["full1"], "never full: no"),
    (&["close1>yes"], "tail #q -> #t, marked: yes"),
    (&["close1"], "tail is #t, marked already: no"),
    (&["isclosed1>yes"], "tail is #t, marked: yes"),
    (&["isclosed1"], "tail is #t, not marked: no"),
];

// What an act did, of so many claims at each end before it.
pub fn act(text: &mut Text, key: Key, e: Entered, tails: u64, heads: u64) {
    let numbers = numbers_of(e, claim_of(e, tails, heads));
    text_sentences::told(text, SENTENCES, key, &numbers, &[]);
}

const CAUSES: &[Row] = &[
    (&["U7>failed", "V4>failed"], "(schedule)"),
    (&["U7>U8", "V4>V5", "len3>len1"], "(own end moved)"),
    (&["U2>U1", "U8>U1", "V2>end", "V5>end"], "(block's end)"),
    (
        &["U5>U1", "U15>U1", "V2>V1", "V5>V1", "V3>V1"],
        "(first block)",
    ),
    (&["V6>V6", "V10>V10"], "(slot in hand)"),
];

// Why an act goes back; nothing where it does not.
pub fn cause(text: &mut Text, key: Key) {
    text_sentences::told(text, CAUSES, key, &[], &[]);
}
