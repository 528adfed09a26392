// Tapes for a host in C or Rust (hosts/): the writer and the reader of crate tapes, whose enums no C function can take or answer, as numbers and slices. `specs/Host.antt` says what each
// answers and what stands in every slice then; a refused call changes nothing that is lent.
#![tactic(auto)]

ghost use Rattle.std.specs.Prelude.{◌≡◌, ◌≢◌, length, ◌+◌, ◌*◌, ◌≤◌, [], ◌∷◌, MatchOption};
ghost use Rattle.tapes_numbers.specs.declared.Variant.TheVariants.{BigEndian, LittleEndian};
ghost use Rattle.tapes_host.specs.Host.{name_of, writing_reply, written, write_tape, about_of, read_out_of, read_tape};
ghost use Rattle.tapes_host.specs.Recorder.{recorded, entries_can, stands, stands_by, recorder_in, begin_tape, append_at, append_tape, end_at, end_tape};

use tapes::{Reading, Writing};
use tapes_numbers::Variant;

// A variant is named by the byte that its tapes begin with.
pub const BIG: u64 = 1;

pub const LITTLE: u64 = 129;

// How many words tell what a tape is about: variant, capacity, workers.
pub const ABOUT: usize = 3;

// The number of a refusal, 0 where there is none; and its value, or how many bytes or words were written.
#[repr(C)]
#[derive(Clone, Copy)]
pub struct Reply {
    pub refusal: u64,
    pub number: u64,
}

impl From<Writing> for Reply {
    ghost from_gives = { λ w r. r ≡ writing_reply w };

    fn from(w: Writing) -> Reply {
        match w {
            Writing::Refused(refusal, value) => Reply {
                refusal,
                number: value as u64,
            },
            Writing::Tape(count) => Reply {
                refusal: 0,
                number: count as u64,
            },
        }
    }
}

fn variant_of(name: u64) -> Option<Variant>
    ensures { MatchOption result ((name ≢ name_of BigEndian) × (name ≢ name_of LittleEndian)) (λ v. name ≡ name_of v) }
{
    match name {
        BIG => Some(Variant::BigEndian),
        LITTLE => Some(Variant::LittleEndian),
        _ => None,
    }
}

// A schedule as a tape at the buffer's start, and how many bytes. 13: no variant has this name; then 11, 17, 16.
#[tactic(auto, using(crate::proofs::Answering::wrote, crate::proofs::Answering::no_variant))]
#[unsafe(no_mangle)]
pub extern "C" fn fern_tape_write(
    variant: u64,
    capacity: u64,
    workers: u64,
    schedule: &[u64],
    tape: &mut [u8],
) -> Reply
    ensures { written result tape.new ≡ write_tape variant capacity workers schedule.now tape.old }
{
    let Some(v) = variant_of(variant) else {
        return Reply {
            refusal: 13,
            number: 0,
        };
    };
    Reply::from(tapes::write(v, capacity, workers, schedule, tape))
}

fn put_three(words: &mut [u64], first: u64, second: u64, third: u64)
    requires { length words.old ≡ 3 }
    ensures { words.new ≡ first ∷ second ∷ third ∷ [] }
{
    words[0] = first;
    words[1] = second;
    words[2] = third;
}

fn put_about(about: &mut [u64], v: Variant, capacity: u64, workers: u64)
    requires { length about.old ≡ 3 }
    ensures { about.new ≡ about_of v capacity workers }
{
    let name = u64::from(tapes_numbers::tag(v, 1));
    put_three(about, name, capacity, workers);
}

// A tape's schedule at the buffer's start, and how many words; what the tape is about. 6: there are not three words for that; then the first fault, 12 to 15, and 16.
#[unsafe(no_mangle)]
pub extern "C" fn fern_tape_read(tape: &[u8], about: &mut [u64], schedule: &mut [u64]) -> Reply
    ensures { read_out_of result about.new schedule.new ≡ read_tape tape.now about.old schedule.old }
{
    if about.len() != ABOUT {
        return Reply {
            refusal: 6,
            number: 0,
        };
    }
    match tapes::read(tape, schedule) {
        Reading::Refused(refusal, value) => Reply {
            refusal,
            number: value as u64,
        },
        Reading::Schedule(v, capacity, workers, count) => {
            put_about(about, v, capacity, workers);
            Reply {
                refusal: 0,
                number: count as u64,
            }
        }
    }
}

// A recorder, as its words say: its variant, the bytes of its tape so far but for the last field, and its entries so far; or that they are no recorder's.
// An enum of its own, since `recorder_in` of specs/Recorder.antt answers it.
#[derive(Clone, Copy)]
pub enum Recorder {
    Broken,
    At(Variant, usize, u64),
}

fn entries_can(bytes: u64, count: u64) -> bool
    ensures { result ≡ entries_can bytes count }
{
    if bytes / 4 < count {
        return false;
    }
    let items = bytes - 4 * count;
    items % 8 == 0 && items / 8 <= count
}

fn stands(room: usize, long: u64, count: u64) -> bool
    ensures { result ≡ stands room long count }
{
    7 <= long && 3 <= room && long <= (room - 3) as u64 && entries_can(long - 7, count)
}

fn stands_by(name: u64, long: u64, count: u64) -> Recorder
    ensures { result ≡ stands_by name long count }
{
    match variant_of(name) {
        Some(v) => Recorder::At(v, long as usize, count),
        None => Recorder::Broken,
    }
}

fn recorder_in(words: &[u64], room: usize) -> Recorder
    ensures { result ≡ recorder_in room words.now }
{
    if words.len() != ABOUT {
        return Recorder::Broken;
    }
    if stands(room, words[1], words[2]) {
        return stands_by(words[0], words[1], words[2]);
    }
    Recorder::Broken
}

// A recorder over this buffer, with no entry yet: its words, and the tape of no entries. 6: there are not three words; then as `fern_tape_write`.
#[unsafe(no_mangle)]
pub extern "C" fn fern_recorder_begin(
    recorder: &mut [u64],
    variant: u64,
    capacity: u64,
    workers: u64,
    tape: &mut [u8],
) -> Reply
    ensures { recorded result recorder.new tape.new ≡ begin_tape variant capacity workers recorder.old tape.old }
{
    if recorder.len() != ABOUT {
        return Reply {
            refusal: 6,
            number: 0,
        };
    }
    let reply = fern_tape_write(variant, capacity, workers, &[], tape);
    if reply.refusal != 0 {
        return reply;
    }
    put_three(recorder, variant, 7, 0);
    reply
}

fn append_at(
    recorder: &mut [u64],
    v: Variant,
    long: usize,
    count: u64,
    first: u64,
    item: u64,
    tape: &mut [u8],
) -> Reply
    requires { (length recorder.old ≡ 3) × (long + 3 ≤ length tape.old) × (4 * count ≤ long) }
    ensures { recorded result recorder.new tape.new ≡ append_at v long count recorder.old first item tape.old }
{
    if !tapes_fields::carried(first, item) {
        return Reply {
            refusal: 17,
            number: count,
        };
    }
    let end = long + tapes_fields::size(first);
    let all = end + 3;
    if tape.len() < all {
        return Reply {
            refusal: 16,
            number: all as u64,
        };
    }
    tapes_fields::put_entry(&mut tape[long..], v, first, item);
    put_three(
        recorder,
        u64::from(tapes_numbers::tag(v, 1)),
        end as u64,
        count + 1,
    );
    Reply {
        refusal: 0,
        number: all as u64,
    }
}

// One entry more, and how many bytes the tape then has. 6: the words are no recorder's of this buffer; then 17 and 16, as `fern_tape_write` of all entries so far and this one.
#[unsafe(no_mangle)]
pub extern "C" fn fern_recorder_append(
    recorder: &mut [u64],
    first: u64,
    second: u64,
    tape: &mut [u8],
) -> Reply
    ensures { recorded result recorder.new tape.new ≡ append_tape recorder.old first second tape.old }
{
    match recorder_in(recorder, tape.len()) {
        Recorder::Broken => Reply {
            refusal: 6,
            number: 0,
        },
        Recorder::At(v, long, count) => append_at(recorder, v, long, count, first, second, tape),
    }
}

fn end_at(v: Variant, long: usize, tape: &mut [u8]) -> Reply
    requires { long + 3 ≤ length tape.old }
    ensures { written result tape.new ≡ end_at v long tape.old }
{
    tapes_fields::put_end(&mut tape[long..], v);
    Reply {
        refusal: 0,
        number: (long + 3) as u64,
    }
}

// The last field, and how many bytes the tape has: what `fern_tape_write` makes of all entries so far. 6: the words are no recorder's of this buffer.
#[unsafe(no_mangle)]
pub extern "C" fn fern_recorder_end(recorder: &[u64], tape: &mut [u8]) -> Reply
    ensures { written result tape.new ≡ end_tape recorder.now tape.old }
{
    match recorder_in(recorder, tape.len()) {
        Recorder::Broken => Reply {
            refusal: 6,
            number: 0,
        },
        Recorder::At(v, long, _) => end_at(v, long, tape),
    }
}
