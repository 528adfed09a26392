// Tapes of schedules: item 5 of the list of change requests. Each function takes anything and answers, or refuses with the
// paper's number; a refusal leaves the lent buffer as it was.
#![tactic(auto)]

ghost use Rattle.std.specs.Prelude.{◌≡◌, ◌≤◌, ◌<◌, ◌%◌, length};
ghost use Rattle.tapes_fields.specs.Fields.{over};
ghost use Rattle.tapes.specs.Written.{tape_of, load_from, write_of, written_of};
ghost use Rattle.tapes.specs.Heard.{hear_in, count_in, words_in, read_of, read_into};

use tapes_fields::{Field, Head};
use tapes_numbers::Variant;

// The four answers are enums of their own, since `write_of`, `load_from`, `count_in` and `read_of` of specs/ answer them.

// What the writer answers: a refusal with its number and value, or the count of bytes written.
#[derive(Clone, Copy)]
pub enum Writing {
    Refused(u64, usize),
    Tape(usize),
}

// What the reader answers: a refusal with its number and value, or variant, capacity, workers and the count of words written.
#[derive(Clone, Copy)]
pub enum Reading {
    Refused(u64, usize),
    Schedule(Variant, u64, u64, usize),
}

// The place of an entry that the tape can't carry, or the tape's length.
#[derive(Clone, Copy)]
pub enum Load {
    Unfit(usize),
    Bytes(usize),
}

// The number and the byte of the first fault, or the count of words.
#[derive(Clone, Copy)]
pub enum Scan {
    Fault(u64, usize),
    Words(usize),
}

fn loaded(words: &[u64]) -> Load
    ensures { result ≡ load_from 0 10 words.now }
{
    let n = words.len() / 2;
    let mut long = 10;
    for i in 0..n {
        let first = words[2 * i];
        if !tapes_fields::carried(first, words[2 * i + 1]) {
            return Load::Unfit(i);
        }
        long += tapes_fields::size(first);
    }
    Load::Bytes(long)
}

// The whole tape at the buffer's start.
fn fill(buffer: &mut [u8], v: Variant, capacity: u64, workers: u64, words: &[u64])
    requires { (load_from 0 10 words.now ≡ Load.Bytes (length (tape_of v capacity workers words.now))) × (length (tape_of v capacity workers words.now) ≤ length buffer.old) }
    ensures { buffer.new ≡ over (tape_of v capacity workers words.now) buffer.old }
{
    tapes_fields::put_head(buffer, v, capacity, workers);
    let n = words.len() / 2;
    let mut at = 7;
    for i in 0..n {
        let first = words[2 * i];
        tapes_fields::put_entry(&mut buffer[at..], v, first, words[2 * i + 1]);
        at += tapes_fields::size(first);
    }
    tapes_fields::put_end(&mut buffer[at..], v);
}

// A schedule's words, with capacity and workers, as a tape at the buffer's start.
pub fn write(v: Variant, capacity: u64, workers: u64, words: &[u64], buffer: &mut [u8]) -> Writing
    ensures answer { result ≡ write_of capacity workers words.now (length buffer.old) }
    ensures lent { buffer.new ≡ written_of v capacity workers words.now buffer.old }
{
    if words.len() % 2 == 1 {
        return Writing::Refused(11, 0);
    }
    if 65535 < capacity || 65535 < workers {
        return Writing::Refused(17, 0);
    }
    match loaded(words) {
        Load::Unfit(place) => Writing::Refused(17, place),
        Load::Bytes(long) => {
            if buffer.len() < long {
                return Writing::Refused(16, long);
            }
            fill(buffer, v, capacity, workers, words);
            Writing::Tape(long)
        }
    }
}

// The fields after the first, to the first fault or the end.
#[tactic(auto, using(crate::proofs::Hears::scan_end, crate::proofs::Hears::scan_after))]
fn scanned(bytes: &[u8], v: Variant) -> Scan
    requires { 7 ≤ length bytes.now }
    ensures { result ≡ count_in (hear_in v bytes.now) }
{
    let mut at = 7;
    let mut n = 0;
    loop {
        match tapes_fields::field_in(&bytes[at..], v) {
            Field::Fault(number) => return Scan::Fault(number, at),
            Field::End => {
                if bytes.len() - at == 3 {
                    return Scan::Words(n);
                }
                return Scan::Fault(15, at + 3);
            }
            Field::Entry(first, _) => {
                at += tapes_fields::size(first);
                n += 2;
            }
        }
    }
}

// So many words, of a tape that has them.
fn copy(bytes: &[u8], v: Variant, n: usize, buffer: &mut [u64])
    requires { (7 ≤ length bytes.now) × (n ≡ length (words_in (hear_in v bytes.now))) × (n ≤ length buffer.old) }
    ensures { buffer.new ≡ over (words_in (hear_in v bytes.now)) buffer.old }
{
    let mut at = 7;
    for i in 0..n / 2 {
        let Field::Entry(first, item) = tapes_fields::field_in(&bytes[at..], v) else {
            return;
        };
        buffer[2 * i] = first;
        buffer[2 * i + 1] = item;
        at += tapes_fields::size(first);
    }
}

// A tape's schedule: variant, capacity and workers, and the words at the buffer's start.
pub fn read(bytes: &[u8], buffer: &mut [u64]) -> Reading
    ensures answer { result ≡ read_of bytes.now (length buffer.old) }
    ensures lent { buffer.new ≡ read_into bytes.now buffer.old }
{
    match tapes_fields::head_in(bytes) {
        Head::Fault(number) => Reading::Refused(number, 0),
        Head::Makes(v, capacity, workers) => match scanned(bytes, v) {
            Scan::Fault(number, at) => Reading::Refused(number, at),
            Scan::Words(count) => {
                if buffer.len() < count {
                    return Reading::Refused(16, count);
                }
                copy(bytes, v, count, buffer);
                Reading::Schedule(v, capacity, workers, count)
            }
        },
    }
}
