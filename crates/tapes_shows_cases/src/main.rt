// Many cases for the reader and the writer of tapes, and what each answers and leaves in the lent buffer. They stand on standard
// input as numbers, each case by a row of them:
//
//   0 ROOM COUNT BYTE ..                      a tape of COUNT bytes is read into ROOM words, which are 7 before
//   1 ROOM COUNT CAPACITY WORKERS WORD ..     a schedule of COUNT words is written into ROOM bytes, which are 238 before
//   2 ROOM COUNT CAPACITY WORKERS WORD ..     the same, in the second variant
//
// No count and no room is above 256. Each answer is a line: what was answered, a colon, and the whole lent buffer.
#![tactic(auto)]

ghost use Rattle.std.specs.Prelude.{IfSome, ◌≤◌, length};

use tapes::{Reading, Writing};
use tapes_numbers::Variant;
use text_numbers::Scan;
use text_output::Text;
use text_system::System;

const MOST: usize = 256;

// A piece of text, and room for the numbers in it with those of a case that is not whole yet.
const BYTES: usize = 16384;

const NUMBERS: usize = 8704;

fn small(n: u64) -> usize
    ensures { result ≤ 256 }
{
    n.min(256) as usize
}

fn bytes_of(list: &[u64]) -> [u8; MOST] {
    let mut bytes = [0; MOST];
    for (byte, n) in bytes.iter_mut().zip(list) {
        *byte = (*n % 256) as u8;
    }
    bytes
}

// The whole of a lent buffer, to the line's end.
fn rest<T: Copy + Into<u64>>(text: &mut Text, buffer: &[T]) {
    for n in buffer {
        text.byte(b' ');
        text.number((*n).into());
    }
    text.byte(b'\n');
}

fn variant_number(v: Variant) -> u64 {
    match v {
        Variant::BigEndian => 1,
        Variant::LittleEndian => 2,
    }
}

fn refused(text: &mut Text, number: u64, value: usize) {
    text.form("refused # at #:", &[number, value as u64]);
}

fn read_answer(text: &mut Text, r: Reading) {
    match r {
        Reading::Refused(number, value) => refused(text, number, value),
        Reading::Schedule(v, capacity, workers, count) => text.form(
            "read variant # capacity # workers # words #:",
            &[variant_number(v), capacity, workers, count as u64],
        ),
    }
}

fn write_answer(text: &mut Text, r: Writing) {
    match r {
        Writing::Refused(number, value) => refused(text, number, value),
        Writing::Tape(count) => text.form("wrote #:", &[count as u64]),
    }
}

fn reads(text: &mut Text, list: &[u64], room: usize)
    requires list_fits { length list.now ≤ 256 }
    requires room_fits { room ≤ 256 }
{
    let tape = bytes_of(list);
    let mut words = [7; MOST];
    let r = tapes::read(&tape[..list.len()], &mut words[..room]);
    read_answer(text, r);
    rest(text, &words[..room]);
}

fn writes(text: &mut Text, v: Variant, capacity: u64, workers: u64, list: &[u64], room: usize)
    requires { room ≤ 256 }
{
    let mut tape = [238; MOST];
    let r = tapes::write(v, capacity, workers, list, &mut tape[..room]);
    write_answer(text, r);
    rest(text, &tape[..room]);
}

fn variant_of(kind: u64) -> Variant {
    if kind == 2 {
        Variant::LittleEndian
    } else {
        Variant::BigEndian
    }
}

// The case at the start of these numbers, if it is whole: how many of them it has.
fn one(text: &mut Text, list: &[u64]) -> Option<usize>
    ensures { IfSome result (λ n. n ≤ length list.now) }
{
    let [kind, room, count, rest @ ..] = list else {
        return None;
    };
    let room = small(*room);
    let count = small(*count);
    if *kind == 0 {
        if rest.len() < count {
            return None;
        }
        reads(text, &rest[..count], room);
        return Some(3 + count);
    }
    let [capacity, workers, words @ ..] = rest else {
        return None;
    };
    if words.len() < count {
        return None;
    }
    let v = variant_of(*kind);
    writes(text, v, *capacity, *workers, &words[..count], room);
    Some(5 + count)
}

// Every whole case of these numbers; how many numbers are left. The text is written where there is much of it, and at the end.
fn all(system: &System, text: &mut Text, list: &[u64]) -> usize
    ensures { result ≤ length list.now }
{
    let mut rest = list;
    for _ in 0..list.len() {
        match one(text, rest) {
            Some(used) => rest = &rest[used..],
            None => break,
        }
        if text.len() > 32768 {
            text.flush(system);
        }
    }
    text.flush(system);
    rest.len()
}

// What is left of the first n goes to the list's start. Each piece has a text of its own, so that after a write that failed the next piece is written all the same.
fn settle(system: &System, room: &mut [u8], list: &mut [u64], n: usize) -> usize {
    if list.len() < n {
        return 0;
    }
    let mut text = Text::new(room);
    let left = all(system, &mut text, &list[..n]);
    list.copy_within(n - left..n, 0);
    left
}

fn run(system: &System, room: &mut [u8], bytes: &mut [u8], list: &mut [u64]) {
    let mut scan = Scan::start(1);
    let mut left = 0;
    for _ in 0..u64::MAX {
        let Ok(n @ 1..) = text_system::streams::read(system, bytes) else {
            return;
        };
        let piece = scan.read_piece(false, &bytes[..n], list, left);
        left = settle(system, room, list, piece.count);
        if piece.stop.is_some() {
            return;
        }
    }
}

fn main(rt: HostRuntime) {
    let mut bytes = [0; BYTES];
    let mut list = [0; NUMBERS];
    let mut room = [0; 65536];
    let system = text_system::of(rt);
    run(&system, &mut room, &mut bytes, &mut list);
}
